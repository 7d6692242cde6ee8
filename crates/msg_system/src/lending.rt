// What ops do to the parts that are lent to them.
ghost use Rattle.std.specs.Prelude.{◌≡◌, ◌<◌, [], ◌∷◌, IfOk, OnErr, OnOk, IsSome, length, map};
ghost use Rattle.std.specs.Fn.{FnReturnsAt};
ghost use Rattle.msg_buffer.specs.Prelude.{StandsFor, clear, message_of, oldest, present, write};
ghost use Rattle.msg_world.specs.{declared.part.Part.TheVariants.OfResource, declared.part.Part.TheVariants.OfType, Prelude.LoanStands, Prelude.SameLoan, Prelude.WorldState, Prelude.shown, Prelude.with_history, Prelude.with_value_of, Prelude.writable};
ghost use Rattle.msg_system.specs.Prelude.{numbers_for, sum_onto};

use crate::NoMemory;
use msg_buffer::{Messages, WriteRefusal, Written};
use msg_world::{Lent, Record, ResNo, TypeNo, Value};

/// The messages of a type that is lent.
pub(crate) fn messages_of<'a, V: Value>(lent: &'a Lent<'_, V>, t: TypeNo) -> &'a Messages<Record<V>>
    requires lent { IsSome (shown (OfType t) lent.now) }
    ensures stands { (s : WorldState V.values) → LoanStands lent.now s
        → StandsFor result.now (s.histories t) }
{
    match lent.reader(t) {
        Some(messages) => messages,
        None => unreachable!(),
    }
}

/// The value of a resource that is lent.
pub(crate) fn value_of<V: Value>(lent: &Lent<V>, r: ResNo) -> V
    requires lent { IsSome (shown (OfResource r) lent.now) }
    ensures value { (s : WorldState V.values) → LoanStands lent.now s → result ≡ s.resources r }
{
    match lent.res(r) {
        Some(value) => value,
        None => unreachable!(),
    }
}

/// Writes what the function makes of each item, or nothing if too few numbers are left.
#[tactic(auto, using(crate::proofs::Lendings::of_loans))]
pub(crate) fn write_each<V: Value, T, F: Fn(&T) -> Record<V>>(
    lent: &mut Lent<V>,
    t: TypeNo,
    items: &[T],
    message_of: F,
) -> Result<Option<Written>, NoMemory>
    requires lent { IsSome (writable (OfType t) lent.old) }
    requires callable { F.IsAlwaysCallable message_of }
    ensures numbers { IfOk result (λ numbers. (s : WorldState V.values) → LoanStands lent.old s
        → numbers ≡ numbers_for (s.histories t) (length items.now)) }

    // If the function makes `f x` of each item x, these are the messages that are written.
    ensures written { OnOk result ((f : T → Record V)
        → ((x : T) (m : Record V) → FnReturnsAt F.Fn message_of x m → m ≡ f x)
        → (s : WorldState V.values) → LoanStands lent.old s
        → LoanStands lent.new (with_history s t (write (map f items.now) (s.histories t)))) }
    ensures same { OnOk result (SameLoan lent.old lent.new) }

    // Memory is refused only if there is something to write, and numbers enough were left. Then
    // nothing changes.
    ensures some { OnErr result (0 < length items.now) }
    ensures refused { OnErr result ((s : WorldState V.values) → LoanStands lent.old s
        → IsSome (numbers_for (s.histories t) (length items.now))) }
    ensures err { OnErr result (lent.new ≡ lent.old) }
{
    match lent.writer(t) {
        None => unreachable!(),
        Some(messages) => match messages.write_each(items, message_of) {
            Ok(written) => Ok(Some(written)),
            Err(WriteRefusal::NumbersSpent(())) => Ok(None),
            Err(WriteRefusal::NoMemory(())) => Err(NoMemory),
        },
    }
}

/// Gives a resource another value.
pub(crate) fn set_value<V: Value>(lent: &mut Lent<V>, r: ResNo, value: V)
    requires lent { IsSome (writable (OfResource r) lent.old) }
    ensures written { (s : WorldState V.values) → LoanStands lent.old s
        → LoanStands lent.new (with_value_of s r value) }
    ensures same { SameLoan lent.old lent.new }
{
    match lent.res_mut(r) {
        None => unreachable!(),
        Some(kept) => *kept = value,
    }
}

/// Adds the values of messages to `start`, one by one, as `Value::plus` says.
pub fn added_up<V: Value>(start: V, records: &[Record<V>]) -> V
    ensures sum { result ≡ sum_onto V.values.plus start records.now }
{
    records
        .iter()
        .fold(start, |sum, record| sum.plus(record.value))
}
