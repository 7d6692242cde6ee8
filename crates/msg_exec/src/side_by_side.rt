// The jobs of a batch, side by side on one world.
ghost use Rattle.std.specs.Prelude.{◌≡◌, ◌≤◌, All, IfOk, OnOk, length, min};
ghost use Rattle.std.specs.List.{AllZip};
ghost use Rattle.msg_exec.specs.{Jobs.IsResult, Jobs.MayRun, Jobs.outcome_if, inner.Batches.AreResults, inner.Batches.IsWithWorld};
ghost use Rattle.msg_workers.specs.Prelude.{EachMay, PassedGate};

use crate::job::{Job, take_turn};
use crate::{Gate, Items, NoMemory, Outcome, Runs, Workers};
use msg_board::Work;
use msg_system::{Reply, SystemOf};
use msg_workers::{PlaceStatistics, run_jobs};
use msg_world::{MAX_SYSTEMS, Taken, Value, World};
use std::alloc::Global;
use std::marker::PhantomData;
use std::mem::replace;
use std::thread::Threads;

/// What the jobs of a frame are run with.
#[derive(Drop)]
pub struct RunContext<'a, R, G> {
    pub rt: &'a R,
    pub alloc: Global,
    pub workers: Workers,
    pub gate: &'a G,
}

/// A job, and the world that it was lent from.
#[derive(Drop)]
pub struct BatchJob<'a, S, V = i64> {
    pub job: Job<S, V>,
    pub world: &'a World<V>,
}

/// The work of a batch: what its jobs give is what they mean on the world as it stands while they
/// are out, or the word that memory was refused.
pub struct Batch<'a, S, V = i64> {
    jobs: PhantomData<(&'a World<V>, S)>,
}

impl<'a, V: Value + Send + Sync, S: SystemOf<Value = V> + Send> Work for Batch<'a, S, V> {
    type Job = BatchJob<'a, S, V>;

    type Done = Result<Job<S, V>, NoMemory>;

    ghost lawful = { λ j r. IsResult V.values S.meaning j.world.now j.job r };
}

/// What came of a turn: whether the system ran, and its replies. If it didn't run, their list is
/// left.
fn outcome_if<V: Value>(ran: bool, replies: Vec<Reply<V>>, left: &mut Vec<Reply<V>>) -> Outcome<V>
    ensures outcome { result ≡ outcome_if ran replies.items }
{
    if ran {
        return Outcome::Ran(Items::from_vec(replies));
    }
    *left = replies;
    Outcome::Skipped
}

impl<'a, V: Value + Send + Sync, S: SystemOf<Value = V> + Send> Runs for Batch<'a, S, V> {
    ghost may = { λ j. MayRun S.meaning j.world.now j.job };

    ghost system_of = { λ j. j.job.number };

    fn number(job: &BatchJob<'a, S, V>) -> u32 {
        job.job.number()
    }

    fn run(alloc: Global, job: BatchJob<'a, S, V>) -> Result<Job<S, V>, NoMemory> {
        let BatchJob { job, world } = job;
        let Job {
            mut guarded,
            mut contents,
        } = job;
        let taken = replace(&mut contents.taken, Taken::none());
        let mut replies = replace(&mut contents.replies, Vec::new(alloc));
        let (taken, ran) = take_turn(
            alloc,
            &mut guarded,
            world,
            &contents.access,
            taken,
            &mut replies,
        )?;
        contents.taken = taken;
        let mut left = Vec::new(alloc);
        contents.outcome = outcome_if(ran, replies, &mut left);
        contents.replies = left;
        Ok(Job { guarded, contents })
    }
}

/// The jobs, each with the world.
fn with_world<'a, V: Value, S: SystemOf<Value = V>>(
    alloc: Global,
    world: &'a World<V>,
    jobs: Vec<Job<S, V>>,
) -> Result<Vec<BatchJob<'a, S, V>>, NoMemory>
    ensures each { IfOk result (λ all. AllZip (IsWithWorld world.now) jobs.items all.items) }
{
    let mut all = Vec::with_capacity(alloc, jobs.len())?;
    for job in jobs {
        all.push(BatchJob { job, world })?;
    }
    Ok(all)
}

/// Runs the jobs on the world that they were lent from, over workers that draw them from a board,
/// and gives what came of each. If memory is refused to one, the others are still run.
pub(crate) fn run_side_by_side<
    R: Threads + Sync,
    V: Value + Send + Sync,
    S: SystemOf<Value = V> + Send,
    G: Gate,
>(
    context: &RunContext<R, G>,
    world: &World<V>,
    jobs: Vec<Job<S, V>>,
    statistics: &mut PlaceStatistics,
) -> Result<Vec<Result<Job<S, V>, NoMemory>>, NoMemory>
    requires few { length jobs.items ≤ MAX_SYSTEMS }
    requires may { EachMay (MayRun S.meaning world.now) jobs.items }
    ensures run { IfOk result
        (λ results. AreResults V.values S.meaning world.now jobs.items results.items) }
    ensures gate_passed { OnOk result
        (All (λ job. PassedGate (G.passed context.now.gate.now)
        (min context.now.workers (length jobs.items)) job.number) jobs.items) }
{
    let alloc = context.alloc;
    let jobs = with_world(alloc, world, jobs)?;
    run_jobs::<R, Batch<S, V>, G>(
        context.rt,
        alloc,
        context.gate,
        context.workers,
        jobs,
        statistics,
    )
}
