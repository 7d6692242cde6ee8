// Frames in a given order.
ghost use Rattle.msg_exec.specs.Prelude.{IsEngine};
ghost use Rattle.msg_world.specs.Prelude.{i64_values};

use crate::cases::BOARD;
use crate::equal::expect_eq;
use crate::expecting::{Told, expect_frame, expect_logs, expect_replay, expect_unlawful};
use crate::making::{Act, Does, run_two_quiet};
use crate::prefaced::{noting_engine, shared_number};
use crate::told::expect_engine;
use msg_exec::EngineOf;
use msg_system::{Start, SystemOf};
use std::panic::Expect;
use std::process::Abort;
use std::sync::Arc;
use std::sync::atomic::{AtomicU64, Ordering};
use std::thread::Threads;

/// The digits that were noted.
fn expect_noted(rt: &impl Abort, noted: &AtomicU64, digits: u64) {
    expect_eq(rt, noted.load(Ordering::SeqCst), digits);
}

/// A writer and two readers, which note their runs.
const WRITER_AND_READERS: &[(Act, Start)] = &[
    ((0, Does::Writes(1)), Start::Zero),
    ((0, Does::Reads), Start::Zero),
    ((0, Does::Reads), Start::Zero),
];

const AFTER_FIRST: &str = "1 frames, from 0 to 1: 0=1\
    [1 of 0: start Some(0) got 1 missed 0 cleared 0 place 1]\
    [2 of 0: start Some(0) got 1 missed 0 cleared 0 place 1]";

const AFTER_SECOND: &str = "2 frames, from 0 to 2: 0=1 0=1\
    [1 of 0: start Some(0) got 2 missed 0 cleared 0 place 2]\
    [2 of 0: start Some(0) got 2 missed 0 cleared 0 place 2]";

/// Refuses three orders of the second frame, in which nothing runs, and then takes one.
fn replay_second<S: SystemOf<Value = i64>>(
    rt: &(impl Abort + AllocGlobal),
    engine: &mut EngineOf<S>,
    noted: &AtomicU64,
)
    requires engine { IsEngine i64_values S.meaning engine.old }
    ensures engine { IsEngine i64_values S.meaning engine.new }
{
    const SECOND_FRAME: &Told<'static> = &(
        &[],
        "[0 wrote 1 from 1][2 read from 1: 0=1][1 read from 1: 0=1]",
    );
    noted.store(0, Ordering::SeqCst);
    expect_unlawful(rt, engine, &[], &[1, 0, 2]);
    expect_unlawful(rt, engine, &[], &[0, 1]);
    expect_unlawful(rt, engine, &[], &[0, 1, 1]);
    expect_noted(rt, noted, 0);
    expect_engine(rt, engine, AFTER_FIRST);
    expect_replay(rt, engine, &[0, 2, 1], SECOND_FRAME);
    // System i notes i + 1: systems 0, 2 and 1 ran, in this order.
    expect_noted(rt, noted, 132);
}

/// Runs the first frame on two workers, and replays the second in another order.
fn run_and_replay<R: Threads + Sync + Abort + AllocGlobal>(rt: &R, noted: &Arc<AtomicU64>) {
    let [first, _second] = BOARD.frames else {
        panic!(rt; "two frames")
    };
    let mut engine = noting_engine(rt, rt.alloc(), 1, WRITER_AND_READERS, noted);
    expect_frame(rt, &mut engine, 2, first);
    replay_second(rt, &mut engine, noted);
    expect_engine(rt, &engine, AFTER_SECOND);
    drop(engine);
}

/// Runs both frames on two workers.
fn run_both<R: Threads + Sync + Abort + AllocGlobal>(rt: &R, noted: &Arc<AtomicU64>) {
    let mut engine = noting_engine(rt, rt.alloc(), 1, WRITER_AND_READERS, noted);
    let mut logs = Vec::new(rt.alloc());
    run_two_quiet(rt, &mut engine, 2, &mut logs).expect(rt, "frames");
    expect_engine(rt, &engine, AFTER_SECOND);
    drop(engine);
    expect_logs(rt, &logs, BOARD.frames);
    drop(logs);
}

/// Two engines of a writer and two readers. One runs two frames on two workers; the other runs the
/// first, and replays the second in another order. They have the same messages, and tell the same
/// accounts.
#[test]
fn a_replayed_frame(rt: HostRuntime) {
    let rt = &rt;
    let noted = shared_number(rt, rt.alloc());
    run_both(rt, &noted);
    run_and_replay(rt, &noted);
}

/// Replays a frame that no system has joined by.
fn expect_post_alone<S: SystemOf<Value = i64>>(
    rt: &(impl Abort + AllocGlobal),
    engine: &mut EngineOf<S>,
    frame: &Told<'_>,
)
    requires engine { IsEngine i64_values S.meaning engine.old }
    ensures engine { IsEngine i64_values S.meaning engine.new }
{
    expect_unlawful(rt, engine, frame.0, &[0]);
    expect_replay(rt, engine, &[], frame);
}

/// Both readers join in the third frame, whose replay lets the second run first.
fn expect_they_join<S: SystemOf<Value = i64>>(
    rt: &(impl Abort + AllocGlobal),
    engine: &mut EngineOf<S>,
)
    requires engine { IsEngine i64_values S.meaning engine.old }
{
    const BEFORE: &str = "2 frames, from 0 to 2: host=1 host=2\
        [0 of 0: start None got 0 missed 0 cleared 0 place 0]\
        [1 of 0: start None got 0 missed 0 cleared 0 place 0]";
    const THIRD: &Told<'static> = &(
        &[3],
        " wrote 1 from 2[1 read from 2: host=3][0 missed 1 read from 1: host=2 host=3]",
    );
    const AFTER: &str = "3 frames, from 1 to 3: host=2 host=3\
        [0 of 0: start Some(0) got 2 missed 1 cleared 0 place 3]\
        [1 of 0: start Some(2) got 1 missed 0 cleared 0 place 3]";
    expect_engine(rt, engine, BEFORE);
    expect_unlawful(rt, engine, &[3], &[0]);
    expect_unlawful(rt, engine, &[3], &[]);
    expect_engine(rt, engine, BEFORE);
    expect_replay(rt, engine, &[1, 0], THIRD);
    expect_engine(rt, engine, AFTER);
}

/// Two readers that join with the third frame, and note their runs.
#[test]
fn late_systems(rt: HostRuntime) {
    let rt = &rt;
    const READERS: &[(Act, Start)] = &[
        ((0, Does::Reads), Start::Zero),
        ((0, Does::Reads), Start::Current),
    ];
    let noted = shared_number(rt, rt.alloc());
    let mut engine = noting_engine(rt, rt.alloc(), 3, READERS, &noted);
    expect_post_alone(rt, &mut engine, &(&[1], " wrote 1 from 0"));
    expect_post_alone(rt, &mut engine, &(&[2], " wrote 1 from 1"));
    expect_they_join(rt, &mut engine);
    drop(engine);
    // System 1 ran, and then system 0.
    expect_noted(rt, &noted, 21);
}
