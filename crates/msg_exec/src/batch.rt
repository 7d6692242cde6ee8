// A frame's turns, batch by batch.
ghost use Rattle.std.specs.Prelude.{◌≡◌, ◌≢◌, ◌<◌, ◌≤◌, [], All, AllPairs, IfOk, OnOk, length, map};
ghost use Rattle.std.specs.List.{concat};
ghost use Rattle.msg_frames.specs.Prelude.{State};
ghost use Rattle.msg_order.specs.Prelude.{NoneConflict};
ghost use Rattle.msg_exec.specs.Prelude.{LenderStands};
ghost use Rattle.msg_workers.specs.Prelude.{EachPassedGate};
ghost use Rattle.msg_exec.specs.inner.{Batches.HasTurned, Batches.IsBatch, SystemsOut.AreOut};

use crate::job::Job;
use crate::lender::{Lender, run_turn};
use crate::side_by_side::{RunContext, run_side_by_side};
use crate::spares::Spares;
use crate::{Gate, NoMemory, Turn};
use msg_system::SystemOf;
use msg_world::{MAX_SYSTEMS, Value};
use std::alloc::Global;
use std::thread::Threads;

/// Takes the systems of a batch out for their turns.
fn lend_out_all<V: Value, S: SystemOf<Value = V>>(
    alloc: Global,
    lender: &mut Lender<S, V>,
    batch: &[u32],
    spares: &mut Spares<V>,
) -> Result<Vec<Job<S, V>>, NoMemory>
    requires batch { (s : State V.values) × IsBatch S.meaning lender.old s batch.now }
    ensures out { IfOk result (λ jobs. AreOut lender.old batch.now jobs.items lender.new) }
{
    let mut jobs = Vec::with_capacity(alloc, batch.len())?;
    for &system in batch {
        jobs.push(lender.lend_out(system, spares.contents(alloc)?)?)?;
    }
    Ok(jobs)
}

/// Runs the jobs of a batch over the workers, and appends their turns, by order of addition.
fn run_over_workers<
    R: Threads + Sync,
    V: Value + Send + Sync,
    S: SystemOf<Value = V> + Send,
    G: Gate,
>(
    context: &RunContext<R, G>,
    lender: &mut Lender<S, V>,
    batch: &[u32],
    spares: &mut Spares<V>,
    turns: &mut Vec<Turn<V>>,
) -> Result<(), NoMemory>
    requires batch { (s : State V.values) × IsBatch S.meaning lender.old s batch.now }
    requires few { length lender.old.accesses.items ≤ MAX_SYSTEMS }
    ensures turned { OnOk result ((s : State V.values) → LenderStands S.meaning lender.old s
        → HasTurned S.meaning batch.now s lender.new turns.old.items turns.new.items) }
    ensures accesses { OnOk result (lender.new.accesses.items ≡ lender.old.accesses.items) }
    ensures gate_passed { OnOk result (EachPassedGate (G.passed context.now.gate.now)
        context.now.workers batch.now) }
{
    let jobs = lend_out_all(context.alloc, lender, batch, spares)?;
    let results = run_side_by_side(
        context,
        &lender.world,
        jobs,
        spares.statistics.current_place(),
    )?;
    for result in results {
        let done = result?;
        turns.push(lender.take_back(done, spares))?;
    }
    Ok(())
}

/// Runs the turns of these systems one after the other, in place and as worker 0, and appends them.
pub(crate) fn run_turns<V: Value, S: SystemOf<Value = V>, G: Gate>(
    alloc: Global,
    lender: &mut Lender<S, V>,
    systems: &[u32],
    gate: &G,
    spares: &mut Spares<V>,
    turns: &mut Vec<Turn<V>>,
) -> Result<(), NoMemory>
    requires stands { (s : State V.values) × (LenderStands S.meaning lender.old s
        × All (λ i. i < s.systems) systems.now) }
    ensures turned { OnOk result ((s : State V.values) → LenderStands S.meaning lender.old s
        → HasTurned S.meaning systems.now s lender.new turns.old.items turns.new.items) }
    ensures accesses { OnOk result (lender.new.accesses.items ≡ lender.old.accesses.items) }
    ensures gate_passed { OnOk result (All (G.passed gate.now 0) systems.now) }
{
    for &system in systems {
        gate.pass(0, system);
        run_turn(alloc, lender, system, spares, turns)?;
    }
    Ok(())
}

/// Runs the jobs of one batch over workers, or in place, and appends their turns, by order of
/// addition.
fn run_batch<R: Threads + Sync, V: Value + Send + Sync, S: SystemOf<Value = V> + Send, G: Gate>(
    context: &RunContext<R, G>,
    lender: &mut Lender<S, V>,
    batch: &[u32],
    spares: &mut Spares<V>,
    turns: &mut Vec<Turn<V>>,
) -> Result<(), NoMemory>
    requires batch { (s : State V.values) × IsBatch S.meaning lender.old s batch.now }
    requires few { length lender.old.accesses.items ≤ MAX_SYSTEMS }
    ensures turned { OnOk result ((s : State V.values) → LenderStands S.meaning lender.old s
        → HasTurned S.meaning batch.now s lender.new turns.old.items turns.new.items) }
    ensures accesses { OnOk result (lender.new.accesses.items ≡ lender.old.accesses.items) }
    ensures gate_passed { OnOk result (EachPassedGate (G.passed context.now.gate.now)
        context.now.workers batch.now) }
{
    let workers = context.workers.number();
    if spares.statistics.goes_over_workers(workers, batch.len()) {
        run_over_workers(context, lender, batch, spares, turns)
    } else {
        run_turns(context.alloc, lender, batch, context.gate, spares, turns)
    }
}

/// Runs the batches one after the other.
pub(crate) fn run_batches<
    R: Threads + Sync,
    V: Value + Send + Sync,
    S: SystemOf<Value = V> + Send,
    G: Gate,
>(
    context: &RunContext<R, G>,
    lender: &mut Lender<S, V>,
    batches: &[Vec<u32>],
    spares: &mut Spares<V>,
) -> Result<Vec<Turn<V>>, NoMemory>
    requires stands { (s : State V.values) × (LenderStands S.meaning lender.old s
        × All (λ batch. All (λ i. i < s.systems) batch.items) batches.now) }
    requires few { length lender.old.accesses.items ≤ MAX_SYSTEMS }
    requires once { AllPairs (λ i j. i ≢ j) (concat (map (λ batch. batch.items) batches.now)) }
    requires apart { All (NoneConflict lender.old.accesses.items)
        (map (λ batch. batch.items) batches.now) }
    ensures turned { IfOk result (λ turns. (s : State V.values)
        → LenderStands S.meaning lender.old s
        → HasTurned S.meaning (concat (map (λ batch. batch.items) batches.now)) s lender.new []
        turns.items) }
    ensures accesses { OnOk result (lender.new.accesses.items ≡ lender.old.accesses.items) }
    ensures gate_passed { OnOk result (EachPassedGate (G.passed context.now.gate.now)
        context.now.workers
        (concat (map (λ batch. batch.items) batches.now))) }
{
    let mut turns = spares.turns(context.alloc, lender.accesses.len())?;
    spares.statistics.begin_frame();
    for batch in batches {
        let first = turns.len();
        run_batch(context, lender, batch, spares, &mut turns)?;
        spares.end_batch(turns.as_slice(), first);
    }
    Ok(turns)
}
