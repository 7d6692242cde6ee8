// Systems start as they join.
ghost use Rattle.std.specs.Prelude.{◌≡◌, ◌<◌, ◌≤◌, ℕ, length, map, IfSome, IsSomeAnd};
ghost use Rattle.msg_system.specs.Prelude.{asked_started, start_place};
ghost use Rattle.msg_frames.specs.Prelude.{State, job_begun, totals_from, with_joining};
ghost use Rattle.msg_exec.specs.Prelude.{AreJoins, LenderStands, job_state, totals_at};
ghost use Rattle.msg_exec.specs.{inner.Totals.first_place, inner.SystemsOut.HaveReadNothing};

use crate::Totals;
use crate::job::GuardedSystem;
use crate::lender::Lender;
use msg_system::{Guard, Start, SystemOf};
use msg_world::{Counts, MAX_TYPES, TypeNo, Value};

/// Sets the cursors of conditions to where they start.
fn start_guards<V: Value>(guards: &mut [Guard<V>], counts: &Counts, start: Start)
    ensures started { guards.new ≡ map (asked_started start counts.now) guards.old }
{
    for guard in guards.iter_mut() {
        guard.start(counts, start);
    }
}

/// Sets the cursors of a system and of its conditions to where they start.
fn start_job<V: Value, S: SystemOf<Value = V>>(guarded: &mut GuardedSystem<S, V>, counts: &Counts)
    ensures begun { job_state S.meaning guarded.new
        ≡ job_begun counts.now (job_state S.meaning guarded.old) }
{
    let start = guarded.system.begins();
    guarded.system.start(counts);
    start_guards(&mut guarded.guards, counts, start);
}

/// Where a cursor of a type starts.
fn start_place(start: Start, counts: &Counts, t: TypeNo) -> u64
    ensures place { result ≡ start_place start counts.now t }
{
    match start {
        Start::Zero => 0,
        Start::Current => counts.of(t).unwrap_or(0),
    }
}

/// Where a system that was given nothing starts in the type of this number.
fn first_place<V: Value, S: SystemOf<Value = V>>(system: &S, counts: &Counts, t: usize) -> u64
    requires type_number { t < MAX_TYPES }
    ensures place { result ≡ first_place (S.meaning system.now) counts.now t }
{
    let Some(t) = TypeNo::new(t as u32) else {
        unreachable!()
    };
    if system.access().reads_type(t) {
        start_place(system.begins(), counts, t)
    } else {
        0
    }
}

/// Opens the accounts of a system where its cursors start.
fn open_accounts<V: Value, S: SystemOf<Value = V>>(
    system: &S,
    counts: &Counts,
    totals: &mut [Totals],
)
    requires few { length totals.old ≤ MAX_TYPES }
    ensures as_many { length totals.new ≡ length totals.old }
    ensures opened { (t : ℕ) → t < length totals.old → totals_at totals.new t
        ≡ totals_from (first_place (S.meaning system.now) counts.now t) }
{
    for t in 0..totals.len() {
        totals[t] = Totals {
            start: Some(first_place(system, counts, t)),
            got: 0,
            missed: 0,
            cleared: 0,
            refused: 0,
        };
    }
}

/// Starts a system, and opens its accounts.
fn join_one<V: Value, S: SystemOf<Value = V>>(
    slot: &mut Option<Box<GuardedSystem<S, V>>>,
    counts: &Counts,
    totals: &mut [Totals],
)
    requires few { length totals.old ≤ MAX_TYPES }
    ensures as_many { length totals.new ≡ length totals.old }
    ensures begun { IfSome slot.old (λ a. IsSomeAnd slot.new
        (λ b. job_state S.meaning b.value ≡ job_begun counts.now (job_state S.meaning a.value))) }
    ensures opened { IfSome slot.old (λ a. (t : ℕ) → t < length totals.old → totals_at totals.new t
        ≡ totals_from (first_place (S.meaning a.value.system) counts.now t)) }
{
    if let Some(guarded) = slot {
        let guarded = &mut **guarded;
        start_job(guarded, counts);
        open_accounts(&guarded.system, counts, totals);
    }
}

/// Starts each system that joins with this frame, and opens its accounts.
pub(crate) fn join_those<V: Value, S: SystemOf<Value = V>>(
    lender: &mut Lender<S, V>,
    joins: &[u32],
    frame: u32,
)
    requires stands { (s : State V.values)
        × (LenderStands S.meaning lender.old s × AreJoins joins.now s
        × HaveReadNothing frame s) }
    ensures joined { (s : State V.values) → LenderStands S.meaning lender.old s
        → AreJoins joins.now s
        → HaveReadNothing frame s → LenderStands S.meaning lender.new (with_joining frame s) }
    ensures accesses { lender.new.accesses ≡ lender.old.accesses }
    ensures world { lender.new.world ≡ lender.old.world }
{
    let counts = lender.world.counts();
    for i in 0..joins.len() {
        if joins[i] != frame {
            continue;
        }
        join_one(&mut lender.systems[i], &counts, &mut lender.totals[i]);
    }
}
