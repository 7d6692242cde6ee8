// Workers side by side.
ghost use Rattle.std.specs.Prelude.{◌≡◌, ◌+◌, ◌-◌, ◌^◌, ◌<◌, ◌≤◌, ℕ, All, IfOk, IfSome, OnOk, Some, length, max, min, slice_get};
ghost use Rattle.std.specs.Thread.{IsSend, IsSync};
ghost use Rattle.msg_board.specs.Prelude.{IsLawfulOutcome, IsNewPass, jobs_of};
ghost use Rattle.msg_workers.specs.Work.{EachMay, PassedGate};
ghost use Rattle.msg_workers.specs.inner.Workers.{HasWorked, HaveWorked, IsFirstDraw};

use crate::limits::MAX_WORKERS;
use crate::runs::{Runs, work_on};
use crate::{Gate, NoMemory, PlaceStatistics, Workers};
use msg_board::{Board, MAX_JOBS, Pass, Work};
use std::alloc::Global;
use std::sync::atomic::{AtomicBool, AtomicU32, Ordering};
use std::thread::{Threads, join_mut, yield_now};

/// How often, at most, a worker that was started, and may start another, looks whether the jobs
/// have run out, before it draws. So many looks take some 50 microseconds, about twice the start of
/// a thread.
const SPIN_LIMIT: u32 = 80_000;

/// Returns once the jobs have run out, and at the latest after so many looks. After the first look
/// it gives way, once: if it shares a processor with the worker that started it, that one draws
/// on for a slice of time, in which it can run many short jobs.
fn wait_briefly(run_out: &AtomicBool) {
    if run_out.load(Ordering::SeqCst) {
        return;
    }
    yield_now();
    for _ in 0..SPIN_LIMIT {
        if run_out.load(Ordering::SeqCst) {
            return;
        }
    }
}

/// What all workers of a list of jobs share.
#[derive(Drop)]
struct Shared<'a, R, W: Work, G> {
    rt: &'a R,
    alloc: Global,
    board: &'a Board<W>,
    gate: &'a G,
    /// Set once a worker that started another has found no job left. It decides only how long a
    /// worker that was started looks.
    run_out: &'a AtomicBool,
    /// How many workers but the first got a job. It decides only how many begin at once later.
    others_with_jobs: &'a AtomicU32,
}

/// The workers that are yet to begin: they are numbered from `next` on, and `at_once` of them, but
/// at least one, begin in new threads before the worker that starts them runs a job.
#[derive(Clone, Copy)]
struct Beginners {
    next: u32,
    at_once: u32,
}

/// Lets the workers of these passes draw all jobs that are left, and gives how many the first of
/// them ran. They are numbered from `worker` on, and the first draws in this thread. If it gets a
/// job, `at_once` others, but at least one, begin in new threads before that job is run. If it gets
/// none, none is left, and the others draw None here, one by one.
#[cycle(workers)]
fn work_from<R: Threads + Sync, W: Runs + Send, G: Gate>(
    shared: &Shared<R, W, G>,
    worker: u32,
    at_once: u32,
    passes: &mut [Pass<W::Job, W::Done>],
) -> u32
    requires few { worker + length passes.old ≤ MAX_WORKERS }
    requires new { All (IsNewPass shared.now.board.now) passes.old }
    requires may { EachMay W.may (jobs_of shared.now.board.now) }
    ensures ran { IfSome (slice_get passes.new 0)
        (λ pass. result ≡ min (length pass.drawn) (2 ^ 32 - 1)) }
    ensures worked { HaveWorked shared.now.board.now
        (λ worker job. G.passed shared.now.gate.now worker (W.system_of job)) worker passes.new }
{
    let Some((pass, others)) = passes.split_first_mut() else {
        return 0;
    };
    let first = shared.board.draw(pass);
    if worker > 0 && first.is_some() {
        shared.others_with_jobs.fetch_add(1, Ordering::SeqCst);
    }
    let next = worker + 1;
    if first.is_none() || others.is_empty() {
        let own = work_on(shared.alloc, shared.board, shared.gate, worker, first, pass);
        work_from(shared, next, 1, others);
        own
    } else {
        let beginners = Beginners { next, at_once };
        work_beside(shared, worker, first, pass, beginners, others)
    }
}

/// Starts a thread in which the next worker draws, while this worker runs the job that it drew
/// first and draws on here. If more than one is to begin at once, the next worker starts no other,
/// and this worker starts the rest before it runs its job; else the next worker may start the one
/// after it, and first looks for a while whether the jobs run out: short ones are drawn here by
/// then, and it starts none. Gives how many jobs it ran.
#[cycle(workers)]
fn work_beside<R: Threads + Sync, W: Runs + Send, G: Gate>(
    shared: &Shared<R, W, G>,
    worker: u32,
    mut first: Option<(usize, W::Job)>,
    pass: &mut Pass<W::Job, W::Done>,
    beginners: Beginners,
    others: &mut [Pass<W::Job, W::Done>],
) -> u32
    requires few { beginners.next + length others.old ≤ MAX_WORKERS }
    requires some { 0 < length others.old }
    requires first { IsFirstDraw shared.now.board.now pass.old first }
    requires new { All (IsNewPass shared.now.board.now) others.old }
    requires may { EachMay W.may (jobs_of shared.now.board.now) }
    ensures ran { result ≡ min (length pass.new.drawn) (2 ^ 32 - 1) }
    ensures own { HasWorked shared.now.board.now
        (λ job. G.passed shared.now.gate.now worker (W.system_of job)) pass.new }
    ensures others { HaveWorked shared.now.board.now
        (λ worker job. G.passed shared.now.gate.now worker (W.system_of job)) beginners.next
        others.new }
{
    let Beginners { next, at_once } = beginners;
    let begun = if at_once > 1 { 1 } else { others.len() };
    let (beside, rest) = others.split_at_mut(begun);
    let after = next + begun as u32;
    let mut own = ||
        requires { IsSync R.row × IsSend W.row × IsSync G.row
            × (after + length rest.now ≤ MAX_WORKERS)
            × IsFirstDraw shared.now.board.now pass.now first
            × All (IsNewPass shared.now.board.now) rest.now
            × EachMay W.may (jobs_of shared.now.board.now) }
        ensures { HasWorked shared.entry.now.board.now
            (λ job. G.passed shared.entry.now.gate.now worker (W.system_of job)) pass.exit.now
            × HaveWorked shared.entry.now.board.now
            (λ worker job. G.passed shared.entry.now.gate.now worker (W.system_of job)) after
            rest.exit.now
            × (result ≡ min (length pass.exit.now.drawn) (2 ^ 32 - 1)) }
    {
        let drew = first.take();
        if rest.is_empty() {
            let ran = work_on(shared.alloc, shared.board, shared.gate, worker, drew, pass);
            shared.run_out.store(true, Ordering::SeqCst);
            ran
        } else {
            let beginners = Beginners {
                next: after,
                at_once: at_once.saturating_sub(1),
            };
            work_beside(shared, worker, drew, pass, beginners, rest)
        }
    };
    let mut theirs = ||
        requires { IsSync R.row × IsSend W.row × IsSync G.row
            × (next + length beside.now ≤ MAX_WORKERS)
            × All (IsNewPass shared.now.board.now) beside.now
            × EachMay W.may (jobs_of shared.now.board.now) }
        ensures { HaveWorked shared.entry.now.board.now
            (λ worker job. G.passed shared.entry.now.gate.now worker (W.system_of job)) next
            beside.exit.now }
    {
        if beside.len() > 1 {
            wait_briefly(shared.run_out);
        }
        work_from(shared, next, 1, beside)
    };
    let (_, ran) = join_mut(shared.rt, &mut theirs, &mut own);
    ran
}

/// Runs the jobs, by at most so many workers and at most one for each job, and gives their results
/// in the order of the jobs. The first worker starts as many others before it runs a job as the
/// statistics of the batch's place say, but at least one and no more than there are, and the last
/// of these starts the next if it gets a job. If no thread can be made, a worker draws in the
/// thread that was to start it, after the jobs of that one. Then the statistics learn how many jobs
/// the first worker ran, and how many others got one: as many begin at once in the next such batch
/// if they ran at least half of the jobs, and else one; and if they ran few, the next batches run
/// in place.
///
/// # Errors
///
/// `NoMemory`, before a job is run or after all were. Jobs and results are dropped then.
pub fn run_jobs<R: Threads + Sync, W: Runs + Send, G: Gate>(
    rt: &R,
    alloc: Global,
    gate: &G,
    workers: Workers,
    jobs: Vec<W::Job>,
    statistics: &mut PlaceStatistics,
) -> Result<Vec<W::Done>, NoMemory>
    requires few { length jobs.items ≤ MAX_JOBS }
    requires may { EachMay W.may jobs.items }
    ensures lawful { IfOk result (λ results. IsLawfulOutcome W.lawful jobs.items results.items) }
    ensures gate_passed { OnOk result ((k : ℕ) (job : W.Job) → slice_get jobs.items k ≡ Some job
        → PassedGate (G.passed gate.now) (min workers (length jobs.items)) (W.system_of job)) }
    ensures at_once { OnOk result ((0 < statistics.new.at_once)
        × (statistics.new.at_once ≤ max 1 (min workers (length jobs.items)))) }
{
    let number = jobs.len() as u32;
    let most = workers.number().min(number).max(1);
    let run_out = AtomicBool::new(false);
    let others_with_jobs = AtomicU32::new(0);
    let (board, mut passes) = Board::<W>::new(alloc, jobs, most)?;
    let shared = Shared {
        rt,
        alloc,
        board: &board,
        gate,
        run_out: &run_out,
        others_with_jobs: &others_with_jobs,
    };
    let own = work_from(&shared, 0, statistics.at_once, passes.as_mut_slice());
    statistics.learn(
        most,
        number,
        own,
        others_with_jobs.load(Ordering::SeqCst).min(most),
    );
    board.close(alloc, passes)
}
