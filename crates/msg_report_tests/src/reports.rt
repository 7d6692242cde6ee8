// Whole reports: sinks that fail, systems without memory, and readers side by side.
use crate::equal::{Have, expect_eq};
use crate::narrow::Narrow;
use crate::scenario_files::accepted;
use crate::sparing::{sparing_engine, workers};
use msg_exec::{Gate, NoGate, RunFault};
use msg_part_tests::meeting::Meeting;
use msg_scenario::{MemorySink, ReportFault, Sink, report};
use std::process::Abort;
use std::thread::Threads;
use std::time::Clock;

/// A reader that runs before the writer, in two frames.
pub const LAG: &str =
    r#"{"types":[["hit",10]],"systems":[{"name":"r","ops":[["read","hit"]]},{"name":"w","ops":[["write","hit",5]]}],"rules":[["r","w"]],"frames":[[],[]]}"#;

pub const LAG_REPORT: &str = "\
    frame 1\n\
    r read hit missed 0: none\n\
    w write hit 0+1\n\
    frame 2\n\
    r read hit missed 0: 0=5@w\n\
    w write hit 1+1\n\
    reader r hit start 0 got 1 missed 0 cleared 0 place 1\n";

const TWO_READERS: &str =
    r#"{"types":[["hit",200]],"systems":[{"name":"a","ops":[["read","hit"]]},{"name":"b","ops":[["read","hit"]]}],"frames":[[["hit",3]],[["hit",4]]]}"#;

const FIRST_FRAME: &str = "\
    frame 1\n\
    host post hit 0+1\n\
    a read hit missed 0: 0=3@host\n\
    b read hit missed 0: 0=3@host\n";

/// What the report of a file by an engine came to, each of whose systems has memory for `runs`
/// runs; how many frames that engine counts then, and whether it is spoiled.
fn report_by_engine<R: Threads + Sync + Abort + AllocGlobal, S: Sink, G: Gate>(
    rt: &R,
    file: &str,
    on: u32,
    runs: u32,
    gate: &G,
    sink: &mut S,
) -> (Result<(), ReportFault>, u32, bool) {
    let scenario = accepted(rt, file);
    let mut engine = sparing_engine(rt.alloc(), &scenario, runs).have(rt);
    let put = report(rt, &mut engine, &scenario, workers(rt, on), gate, sink);
    let told = (put, engine.frames_run(), engine.world().is_none());
    drop(engine);
    drop(scenario);
    told
}

/// The report of `LAG` into this sink fails, and the sink has just the first `left` bytes.
fn expect_cut<R: Threads + Sync + Abort + AllocGlobal>(rt: &R, sink: Narrow, left: usize) {
    let mut sink = sink;
    let frames = if left <= 49 { 1 } else { 2 };
    let came = report_by_engine(rt, LAG, 1, 2, &NoGate, &mut sink);
    let want = (Err(ReportFault::Write), frames, false);
    expect_eq(rt, (left, came), (left, want));
    assert!(rt; left <= LAG_REPORT.len());
    sink.expect(rt, 1, &LAG_REPORT.as_bytes()[..left]);
    drop(sink);
}

/// The first frame has 50 bytes, and if they weren't taken the second frame wasn't run.
#[test]
fn sinks_that_fail(rt: HostRuntime) {
    for left in 0..LAG_REPORT.len() {
        expect_cut(&rt, Narrow::new(1000, left, left % 2 == 0), left);
    }
    expect_cut(&rt, Narrow::new(9, 9, false), 9);
}

#[test]
fn a_sink_that_takes_byte_by_byte(rt: HostRuntime) {
    let rt = &rt;
    let mut sink = Narrow::new(1, LAG_REPORT.len(), false);
    let came = report_by_engine(rt, LAG, 1, 2, &NoGate, &mut sink);
    expect_eq(rt, came, (Ok(()), 2, false));
    sink.expect(rt, 0, LAG_REPORT.as_bytes());
    drop(sink);
}

/// If each system has memory for so many runs, the report stops behind this text.
fn expect_spoiled<R: Threads + Sync + Abort + AllocGlobal>(rt: &R, runs: u32, text: &str) {
    let mut sink = MemorySink::new();
    let came = report_by_engine(rt, TWO_READERS, 2, runs, &NoGate, &mut sink);
    let fault = ReportFault::Run(RunFault::NoMemory);
    expect_eq(rt, came, (Err(fault), runs, true));
    expect_eq(rt, (runs, sink.bytes()), (runs, text.as_bytes()));
    drop(sink);
}

#[test]
fn systems_without_memory(rt: HostRuntime) {
    expect_spoiled(&rt, 0, "");
    expect_spoiled(&rt, 1, FIRST_FRAME);
}

/// Holds system 0 until it was called for another.
#[derive(Drop)]
struct HoldGate<'a, C> {
    others: Meeting<'a, C>,
}

impl<'a, C: Clock> HoldGate<'a, C> {
    fn new(clock: &'a C) -> HoldGate<'a, C> {
        HoldGate {
            others: Meeting::new(clock, 1),
        }
    }

    /// System 1 passed in both frames, and in the first while system 0 was held.
    fn expect_met(&self, rt: &impl Abort) {
        expect_eq(rt, (self.others.came(), self.others.missed()), (2, 0));
    }
}

impl<C: Clock + Sync> Gate for HoldGate<'_, C> {
    fn pass(&self, _worker: u32, system: u32) {
        if system == 0 {
            self.others.wait();
        } else {
            self.others.come();
        }
    }
}

/// In the first frame one reader is held until the other came, so each needs a worker of its own.
#[test]
fn readers_run_side_by_side(rt: HostRuntime) {
    let rt = &rt;
    let gate = HoldGate::new(rt);
    let mut sink = MemorySink::new();
    let came = report_by_engine(rt, TWO_READERS, 2, 2, &gate, &mut sink);
    expect_eq(rt, came, (Ok(()), 2, false));
    gate.expect_met(rt);
    drop(sink);
}
