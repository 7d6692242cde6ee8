// On which threads the jobs of a batch run, when the gate is called, and that a job may be skipped.
ghost use Rattle.msg_exec.specs.Prelude.{IsEngine};
ghost use Rattle.msg_world.specs.Prelude.{i64_values};

use crate::equal::expect_eq;
use crate::expecting::{Told, expect_frames};
use crate::making::{add, engine_over, reader, run_frame};
use crate::prefaced::{add_counts, prefaced_readers, shared_number};
use msg_exec::{EngineBuilder, EngineOf, Gate};
use msg_part_tests::meeting::Meeting;
use msg_part_tests::numbers::type_no;
use msg_part_tests::prefaced::Prefaced;
use msg_system::{Condition, Probe, Scripted, Start, SystemOf};
use std::alloc::Global;
use std::panic::Expect;
use std::process::Abort;
use std::sync::atomic::{AtomicU64, Ordering};
use std::thread::Threads;
use std::time::Clock;

/// Holds one system, or each, until so many calls came, and counts the wrong calls: those whose
/// worker's number is in use by another call or isn't below the number of workers, those before
/// which there were more runs than calls, and, on one worker, those that aren't in turn.
#[derive(Drop)]
pub struct Watch<'a, C> {
    workers: u32,
    held: Option<u32>,
    runs: &'a AtomicU64,
    meeting: Meeting<'a, C>,
    busy: AtomicU64,
    wrong: AtomicU64,
}

impl<'a, C: Clock> Watch<'a, C> {
    /// Holds this system, or each, until `awaited` calls came. The runs are counted elsewhere.
    pub fn new(
        clock: &'a C,
        workers: u32,
        held: Option<u32>,
        awaited: u64,
        runs: &'a AtomicU64,
    ) -> Watch<'a, C> {
        Watch {
            workers,
            held,
            runs,
            meeting: Meeting::new(clock, awaited),
            busy: AtomicU64::new(0),
            wrong: AtomicU64::new(0),
        }
    }

    /// `calls` calls came and no more, none was wrong, and each that was held saw all that it
    /// awaited.
    pub fn expect_met(&self, rt: &impl Abort, calls: u64) {
        let wrong = self.wrong.load(Ordering::SeqCst);
        let found = (self.meeting.came(), self.meeting.missed(), wrong);
        expect_eq(rt, (self.held, found), (self.held, (calls, 0, 0)));
    }
}

impl<C: Clock + Sync> Gate for Watch<'_, C> {
    fn pass(&self, worker: u32, system: u32) {
        let runs = self.runs.load(Ordering::SeqCst);
        let before = self.meeting.come();
        let bit = 1u64 << (worker % 64);
        let is_busy = self.busy.fetch_or(bit, Ordering::SeqCst) & bit != 0;
        let is_out_of_turn = self.workers == 1 && system as u64 != before;
        if worker >= self.workers || is_busy || runs > before || is_out_of_turn {
            self.wrong.fetch_add(1, Ordering::SeqCst);
        }
        if self.held.is_none() || self.held == Some(system) {
            self.meeting.wait();
        }
        self.busy.fetch_and(!bit, Ordering::SeqCst);
    }
}

/// How many readers there are, on how many workers they run, which of them (or each) the gate holds
/// in the first frame, and until how many calls came.
type Row = (u32, u32, Option<u32>, u64);

/// If each is held until one was begun on each worker, each worker has a thread and a number of its
/// own. One worker takes a hundred jobs one by one. One job needs one worker if 64 may run.
const ROWS: &[Row] = &[
    (3, 2, Some(0), 3),
    (3, 2, Some(1), 3),
    (3, 2, Some(2), 3),
    (2, 2, None, 2),
    (3, 3, None, 3),
    (4, 4, None, 4),
    (5, 5, None, 5),
    (20, 20, None, 20),
    (65, 2, None, 2),
    (100, 1, None, 0),
    (1, 64, None, 0),
];

/// Runs a frame on these, with a gate that is called once for each, before its run.
fn run_held<R: Threads + Clock + Sync + Abort + AllocGlobal>(
    rt: &R,
    engine: &mut EngineOf<Prefaced>,
    runs: &AtomicU64,
    row: Row,
)
    requires engine { IsEngine i64_values ⟦<Prefaced as SystemOf>⟧.meaning engine.old }
    ensures engine { IsEngine i64_values ⟦<Prefaced as SystemOf>⟧.meaning engine.new }
{
    let (number, workers, held, awaited) = row;
    runs.store(0, Ordering::SeqCst);
    let gate = Watch::new(rt, workers.min(number), held, awaited, runs);
    drop(run_frame(rt, engine, &[5], workers, &gate));
    gate.expect_met(rt, number as u64);
    expect_eq(rt, runs.load(Ordering::SeqCst), number as u64);
}

/// What the first frame has shown decides whether the workers of the second rest and how many start
/// at once, so nobody is held in it.
fn expect_row<R: Threads + Clock + Sync + Abort + AllocGlobal>(rt: &R, row: Row) {
    let (number, workers, held, _) = row;
    let runs = shared_number(rt, rt.alloc());
    let mut all = Vec::new(rt.alloc());
    add_counts(rt, &mut all, number, &runs);
    let mut engine = prefaced_readers(rt, rt.alloc(), all);
    run_held(rt, &mut engine, &runs, row);
    run_held(rt, &mut engine, &runs, (number, workers, held, 0));
    drop(engine);
}

#[test]
fn readers_run_side_by_side(rt: HostRuntime) {
    for row in ROWS {
        expect_row(&rt, *row);
    }
}

/// Two readers of the first type, of which the first runs if messages of the second came.
fn one_that_waits(rt: &impl Abort, alloc: Global) -> EngineOf<Scripted>
    ensures engine { IsEngine i64_values ⟦<Scripted as SystemOf>⟧.meaning result }
{
    let mut systems = EngineBuilder::new(alloc);
    let probe = Probe::OnMessage(type_no(1));
    let conditions = vec![in alloc; Condition { nots: 0, probe }].expect(rt, "a condition");
    let waits = reader(rt, alloc, Start::Zero);
    add(rt, &mut systems, waits, conditions, 1);
    let reads = reader(rt, alloc, Start::Zero);
    add(rt, &mut systems, reads, Vec::new(alloc), 1);
    engine_over(rt, alloc, systems, &[10, 10], &[])
}

/// The first batch in its place goes over workers, and one of its systems is skipped.
#[test]
fn a_job_may_be_skipped(rt: HostRuntime) {
    const FRAMES: &[Told<'static>] = &[
        (
            &[5],
            " wrote 1 from 0[0 was skipped][1 read from 0: host=5]",
        ),
        (
            &[6],
            " wrote 1 from 1[0 was skipped][1 read from 1: host=6]",
        ),
    ];
    for number in [1, 2, 64] {
        expect_frames(&rt, one_that_waits(&rt, rt.alloc()), number, FRAMES);
    }
}
