// Relays and tallies that join late, and miss messages that were dropped before.
ghost use Rattle.msg_exec.specs.Prelude.{IsEngine};
ghost use Rattle.msg_world.specs.Prelude.{i64_values};

use crate::equal::expect_eq;
use crate::making::{add, engine_over, frame_of, run_frames};
use crate::told::expect_log;
use msg_exec::{EngineBuilder, EngineOf, Frame, NoGate};
use msg_part_tests::numbers::{res_no, type_no};
use msg_system::{Numbered, Relay, Start, SystemOf, Tally};
use std::alloc::Global;
use std::panic::Expect;
use std::process::Abort;
use std::thread::Threads;

/// An engine of this system, which joins with the third frame.
fn engine_of_late<S: Numbered + SystemOf<Value = i64>>(
    rt: &impl Abort,
    alloc: Global,
    system: S,
) -> EngineOf<S>
    ensures engine { IsEngine i64_values S.meaning result }
{
    let mut systems = EngineBuilder::new(alloc);
    add(rt, &mut systems, system, Vec::new(alloc), 3);
    engine_over(rt, alloc, systems, &[10, 10], &[7])
}

/// Three frames, of which each posts a message.
fn three_frames(rt: &impl Abort, alloc: Global) -> Vec<Frame> {
    let mut frames = Vec::new(alloc);
    for value in [1, 2, 3] {
        let frame = frame_of(rt, alloc, &[value]);
        frames.push(frame).expect(rt, "a frame");
    }
    frames
}

/// Runs three frames on this system. The first message was missed, and the two others were read:
/// the log of the third frame tells this.
fn expect_third<
    R: Threads + Sync + Abort + AllocGlobal,
    S: Numbered + SystemOf<Value = i64> + Send,
>(rt: &R, system: S, number: u32, told: &str) {
    let mut engine = engine_of_late(rt, rt.alloc(), system);
    let (frames, mut logs) = (three_frames(rt, rt.alloc()), Vec::new(rt.alloc()));
    let ran = run_frames(rt, &mut engine, &frames, number, &NoGate, &mut logs);
    drop((engine, frames));
    ran.expect(rt, "frames");
    expect_eq(rt, logs.len(), 3);
    expect_log(rt, logs.last().expect(rt, "a log"), told);
    drop(logs);
}

fn expect_relay<R: Threads + Sync + Abort + AllocGlobal>(rt: &R, number: u32) {
    let told = " wrote 1 from 2\
        [0 missed 1 read from 1: host=2 host=3, Some(Written { first: 0, n: 2 })]";
    let relay = Relay::new(type_no(0), type_no(1), Start::Zero, 0);
    expect_third(rt, relay, number, told);
}

fn expect_tally<R: Threads + Sync + Abort + AllocGlobal>(rt: &R, number: u32) {
    let told = " wrote 1 from 2[0 missed 1 read from 1: host=2 host=3, sum 12]";
    let tally = Tally::new(type_no(0), res_no(0), Start::Zero, 0);
    expect_third(rt, tally, number, told);
}

#[test]
fn a_late_relay(rt: HostRuntime) {
    for number in [1, 2] {
        expect_relay(&rt, number);
    }
}

#[test]
fn a_late_tally(rt: HostRuntime) {
    for number in [1, 2] {
        expect_tally(&rt, number);
    }
}
