// Engines that want of memory spoils, and what the other jobs of a batch do beside it.
ghost use Rattle.msg_exec.specs.Prelude.{IsEngine};
ghost use Rattle.msg_world.specs.Prelude.{i64_values};

use crate::equal::expect_eq;
use crate::expecting::{Told, expect_fault, expect_frame};
use crate::frames::Watch;
use crate::making::{replay, run_two_quiet, try_frame};
use crate::prefaced::{add_counts, prefaced_readers, shared_number};
use msg_exec::{EngineOf, NoGate, RunFault};
use msg_part_tests::prefaced::{Before, Prefaced};
use msg_system::SystemOf;
use std::alloc::Global;
use std::panic::Expect;
use std::process::Abort;
use std::sync::Arc;
use std::sync::atomic::{AtomicU64, Ordering};
use std::thread::Threads;
use std::time::Clock;

/// Each call that runs a frame answers `Spoiled`.
fn expect_none_runs<R: Threads + Sync + Abort + AllocGlobal, S: SystemOf<Value = i64> + Send>(
    rt: &R,
    engine: &mut EngineOf<S>,
)
    requires engine { IsEngine i64_values S.meaning engine.old }
    ensures engine { IsEngine i64_values S.meaning engine.new }
{
    let one = try_frame(rt, engine, &[], 1, &NoGate);
    expect_fault(rt, one, RunFault::Spoiled);
    let mut logs = Vec::new(rt.alloc());
    let two = run_two_quiet(rt, engine, 1, &mut logs);
    expect_fault(rt, two, RunFault::Spoiled);
    expect_eq(rt, logs.len(), 0);
    drop(logs);
    let replayed = replay(rt, engine, &[], &[0, 1]);
    expect_fault(rt, replayed, RunFault::Spoiled);
}

/// The engine was spoiled after `frames_run` frames: each call that runs a frame answers `Spoiled`,
/// and so does `accounts`; and there is no world.
pub fn expect_spoiled<R: Threads + Sync + Abort + AllocGlobal, S: SystemOf<Value = i64> + Send>(
    rt: &R,
    engine: &mut EngineOf<S>,
    frames_run: u32,
)
    requires engine { IsEngine i64_values S.meaning engine.old }
{
    expect_none_runs(rt, engine);
    expect_fault(rt, engine.accounts(), RunFault::Spoiled);
    let left = (engine.world().is_none(), engine.frames_run());
    expect_eq(rt, left, (true, frames_run));
}

/// An engine of readers of one type. The first of them has memory for `first_runs` runs; the runs
/// of the others are counted.
fn failing_engine(
    rt: &impl Abort,
    alloc: Global,
    readers: u32,
    first_runs: u32,
    runs: &Arc<AtomicU64>,
) -> EngineOf<Prefaced>
    ensures engine { IsEngine i64_values ⟦<Prefaced as SystemOf>⟧.meaning result }
{
    let mut all = vec![in alloc; Before::FailAfter(first_runs)].expect(rt, "a list");
    add_counts(rt, &mut all, readers.saturating_sub(1), runs);
    prefaced_readers(rt, alloc, all)
}

/// Two readers side by side. In the second frame one of them has no memory, and that spoils the
/// engine.
fn expect_second_fails<R: Threads + Sync + Abort + AllocGlobal>(rt: &R, workers: u32) {
    const FIRST: &Told<'static> = &(&[], "[0 read from 0:][1 read from 0:]");
    let runs = shared_number(rt, rt.alloc());
    let mut engine = failing_engine(rt, rt.alloc(), 2, 1, &runs);
    expect_frame(rt, &mut engine, workers, FIRST);
    let second = try_frame(rt, &mut engine, &[], workers, &NoGate);
    expect_fault(rt, second, RunFault::NoMemory);
    expect_spoiled(rt, &mut engine, 1);
    drop(engine);
}

#[test]
fn a_second_run_without_memory(rt: HostRuntime) {
    for workers in [1, 2] {
        expect_second_fails(&rt, workers);
    }
}

/// How many readers and workers there are, and how many of the others are run.
const ROWS: &[(u32, u32, u32)] = &[(2, 1, 0), (2, 2, 1), (5, 2, 4), (5, 64, 4)];

/// If one job has no memory, `run` others of its batch are run.
fn expect_run_of_others<R: Threads + Clock + Sync + Abort + AllocGlobal>(
    rt: &R,
    readers: u32,
    workers: u32,
    run: u32,
) {
    let runs = shared_number(rt, rt.alloc());
    let mut engine = failing_engine(rt, rt.alloc(), readers, 0, &runs);
    let held = workers.min(readers);
    let gate = Watch::new(rt, held, None, held as u64, &runs);
    let log = try_frame(rt, &mut engine, &[], workers, &gate);
    expect_fault(rt, log, RunFault::NoMemory);
    expect_spoiled(rt, &mut engine, 0);
    drop(engine);
    gate.expect_met(rt, run as u64 + 1);
    let ran = runs.load(Ordering::SeqCst);
    expect_eq(rt, (workers, ran), (workers, run as u64));
}

/// The other workers run the other jobs of the batch; if the job was the only worker's, no job
/// runs after it.
#[test]
fn the_others_run_where_one_has_no_memory(rt: HostRuntime) {
    for (readers, workers, run) in ROWS {
        expect_run_of_others(&rt, *readers, *workers, *run);
    }
}
