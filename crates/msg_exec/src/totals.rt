// What readers were given, and what writers were refused, is added to their totals.
ghost use Rattle.std.specs.Prelude.{◌≡◌, ◌∷◌, [], ℕ, ◌<◌, IsTrue, List, Some, is_some, length, not, option_to_list, slice_get, slice_set};
ghost use Rattle.std.specs.Global.{Vec as VecOf};
ghost use Rattle.msg_frames.specs.declared.totals.Totals.{Totals as TotalsOf};
ghost use Rattle.msg_frames.specs.Prelude.{entry_of, entry_of_read, with_entries, with_refused};
ghost use Rattle.msg_exec.specs.Prelude.{capped_totals, totals_at};
ghost use Rattle.msg_system.specs.declared.op.Op.{Op};
ghost use Rattle.msg_exec.specs.inner.{SystemsOut.HaveEntered, Totals.HasFewReplies, Totals.entry_at, Totals.refused_there, Totals.totals_by, Totals.totals_with};

use crate::{Outcome, Totals};
use msg_system::{Reply, SystemOf, Took};
use msg_world::Value;

/// Adds what an op that read took.
fn add_read<V: Value>(totals: &mut Totals, took: &Took<V>)
    ensures added { (x : TotalsOf) → totals.old ≡ capped_totals x
        → totals.new ≡ capped_totals (with_entries (entry_of_read took.now ∷ []) x) }
{
    totals.got = totals
        .got
        .saturating_add(took.items.as_slice().len() as u64);
    totals.missed = totals.missed.saturating_add(took.missed);
}

/// Adds what a reply tells that its reader went past.
fn add<V: Value>(totals: &mut Totals, reply: &Reply<V>)
    ensures added { (x : TotalsOf) → totals.old ≡ capped_totals x
        → totals.new ≡ capped_totals (with_entries (option_to_list (entry_of reply.now)) x) }
{
    if let Some(took) = reply.took() {
        add_read(totals, took);
    } else if let Reply::Cleared { missed, n, .. } = reply {
        totals.missed = totals.missed.saturating_add(*missed);
        totals.cleared = totals.cleared.saturating_add(*n);
    }
}

/// Whether a reply tells of a reader: of one that read, or cleared.
fn is_of_reader<V: Value>(reply: &Reply<V>) -> bool
    ensures { result ≡ is_some (entry_of reply.now) }
{
    reply.took().is_some() || matches!(reply, Reply::Cleared { .. })
}

/// Whether a reply adds something to totals: it tells of a reader, or of what wasn't written.
fn adds<V: Value>(reply: &Reply<V>) -> bool
    ensures none { IsTrue (not result) → (t : ℕ) (ops : List (Op V)) (k : ℕ) (x : TotalsOf)
        → totals_with t ops k reply.now x ≡ x }
{
    is_of_reader(reply) || reply.is_spent()
}

/// Whether a reply of a turn adds something to totals.
fn any_adds<V: Value>(outcome: &Outcome<V>) -> bool
    ensures none { IsTrue (not result) → (t : ℕ) (ops : List (Op V)) (x : TotalsOf)
        → totals_by t ops outcome.now x ≡ x }
{
    let Outcome::Ran(replies) = outcome else {
        return false;
    };
    for reply in replies.as_slice() {
        if adds(reply) {
            return true;
        }
    }
    false
}

/// Adds what one reply tells that the system read to the totals of that type.
fn enter_read<V: Value, S: SystemOf<Value = V>>(
    system: &S,
    op: u32,
    reply: &Reply<V>,
    totals: &mut [Totals],
)
    ensures as_many { length totals.new ≡ length totals.old }
    ensures entered { (t : ℕ) (x : TotalsOf) → t < length totals.old
        → totals_at totals.old t ≡ capped_totals x
        → totals_at totals.new t
        ≡ capped_totals (with_entries (entry_at t (S.meaning system.now).last op reply.now) x) }
{
    if !is_of_reader(reply) {
        return;
    }
    if let Some(t) = system.read_type(op) {
        let t = t.number() as usize;
        if t < totals.len() {
            add(&mut totals[t], reply);
        }
    }
}

/// Adds what one reply tells that the system didn't write to the totals of that type.
fn enter_refused<V: Value, S: SystemOf<Value = V>>(
    system: &S,
    op: u32,
    reply: &Reply<V>,
    totals: &mut [Totals],
)
    ensures as_many { length totals.new ≡ length totals.old }
    ensures entered { (t : ℕ) (x : TotalsOf) → t < length totals.old
        → totals_at totals.old t ≡ capped_totals x
        → totals_at totals.new t
        ≡ capped_totals (with_refused
        (refused_there t (S.meaning system.now).last op reply.now) x) }
{
    if !reply.is_spent() {
        return;
    }
    if let Some(refused) = system.refused(op, reply) {
        let t = refused.of_type.number() as usize;
        if t < totals.len() {
            add_refused(&mut totals[t], refused.n);
        }
    }
}

/// Adds so many messages that weren't written.
fn add_refused(totals: &mut Totals, n: u64)
    ensures added { (x : TotalsOf) → totals.old ≡ capped_totals x
        → totals.new ≡ capped_totals (with_refused n x) }
{
    totals.refused = totals.refused.saturating_add(n);
}

/// Adds what one reply of a system tells to the totals of its types.
fn enter_reply<V: Value, S: SystemOf<Value = V>>(
    system: &S,
    op: u32,
    reply: &Reply<V>,
    totals: &mut [Totals],
)
    ensures as_many { length totals.new ≡ length totals.old }
    ensures entered { (t : ℕ) (x : TotalsOf) → t < length totals.old
        → totals_at totals.old t ≡ capped_totals x
        → totals_at totals.new t
        ≡ capped_totals (totals_with t (S.meaning system.now).last op reply.now x) }
{
    enter_read(system, op, reply, totals);
    enter_refused(system, op, reply, totals);
}

/// Adds what came of a system's turn to its totals, by type.
fn enter<V: Value, S: SystemOf<Value = V>>(system: &S, totals: &mut [Totals], outcome: &Outcome<V>)
    requires few { HasFewReplies outcome.now }
    ensures as_many { length totals.new ≡ length totals.old }
    ensures entered { (t : ℕ) (x : TotalsOf) → t < length totals.old
        → totals_at totals.old t ≡ capped_totals x
        → totals_at totals.new t
        ≡ capped_totals (totals_by t (S.meaning system.now).last outcome.now x) }
{
    let Outcome::Ran(replies) = outcome else {
        return;
    };
    let mut op = 0;
    for reply in replies.as_slice() {
        enter_reply(system, op, reply, totals);
        op += 1;
    }
}

/// The same among the totals of all systems, which stay if no reply adds something.
pub(crate) fn enter_turn<V: Value, S: SystemOf<Value = V>>(
    system: &S,
    number: usize,
    all: &mut Vec<Vec<Totals>>,
    outcome: &Outcome<V>,
)
    requires few { HasFewReplies outcome.now }
    requires there { number < length all.old.items }
    ensures entered { (v : VecOf TotalsOf)
        × (all.new.items ≡ slice_set all.old.items number v)
        × ((u : VecOf TotalsOf) → slice_get all.old.items number ≡ Some u
        → HaveEntered (S.meaning system.now).last outcome.now u.items v.items) }
{
    if any_adds(outcome) {
        enter(system, &mut all[number], outcome);
    }
}
