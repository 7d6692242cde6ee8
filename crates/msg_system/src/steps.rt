// What each op does to the loan of its system, and to its system's cursor. After want of memory
// both are as they were. What is read goes into a list that comes empty. What an op does that has
// no cursor is the same for all places, and is said for places that are 0; so is the writer's
// number for one that writes no message.
ghost use Rattle.std.specs.Prelude.{◌≡◌, [], ℕ, IfOk, IsSome, OnErr, OnOk};
ghost use Rattle.msg_world.specs.{declared.part.Part.TheVariants.OfResource, declared.part.Part.TheVariants.OfType, declared.part.Part.TheVariants.Registry, Prelude.SameLoan, Prelude.shown, Prelude.writable};
ghost use Rattle.msg_system.specs.declared.op.Op.TheVariants.{Add, Batch, Clear, Drain, Forward, Get, Len, Missed, Read, Set, Signal, Sum, Write};
ghost use Rattle.msg_system.specs.Prelude.{MayBeRefused, OpRan, with_place};
ghost use Rattle.msg_system.specs.inner.TurnRuns.{nowhere};

use crate::lending::{added_up, messages_of, set_value, value_of, write_each};
use crate::reading::read_unread;
use crate::{Items, NoMemory, Reply};
use msg_buffer::{MessageCursor, WriteRefusal, Written};
use msg_world::{Lent, Record, ResNo, TypeNo, Value};

#[tactic(auto, using(crate::proofs::Lendings::of_loans))]
pub(crate) fn write<V: Value>(
    lent: &mut Lent<V>,
    writer: u32,
    t: TypeNo,
    value: V,
) -> Result<Reply<V>, NoMemory>
    requires lent { IsSome (writable (OfType t) lent.old) }
    ensures ran { IfOk result
        (OpRan V.values (Write t value) writer nowhere nowhere lent.old lent.new) }
    ensures same { OnOk result (SameLoan lent.old lent.new) }
    ensures refused { OnErr result (MayBeRefused V.values (Write t value) nowhere lent.old) }
    ensures err { OnErr result (lent.new ≡ lent.old) }
{
    match lent.writer(t) {
        None => unreachable!(),
        Some(messages) => match messages.write(Record { writer, value }) {
            Ok(id) => Ok(Reply::Wrote(Written { first: id.0, n: 1 })),
            Err(WriteRefusal::NumbersSpent(_)) => Ok(Reply::Spent),
            Err(WriteRefusal::NoMemory(_)) => Err(NoMemory),
        },
    }
}

pub(crate) fn batch<V: Value>(
    lent: &mut Lent<V>,
    writer: u32,
    t: TypeNo,
    values: &Items<V>,
) -> Result<Reply<V>, NoMemory>
    requires lent { IsSome (writable (OfType t) lent.old) }
    ensures ran { IfOk result
        (OpRan V.values (Batch t values.now) writer nowhere nowhere lent.old lent.new) }
    ensures same { OnOk result (SameLoan lent.old lent.new) }
    ensures refused { OnErr result (MayBeRefused V.values (Batch t values.now) nowhere lent.old) }
    ensures err { OnErr result (lent.new ≡ lent.old) }
{
    let message_of = |value: &V| Record {
        writer,
        value: *value,
    };
    let numbers = write_each(lent, t, values.as_slice(), message_of)?;
    Ok(match numbers {
        Some(written) => Reply::Wrote(written),
        None => Reply::Spent,
    })
}

pub(crate) fn read<V: Value>(
    list: Vec<Record<V>>,
    lent: &Lent<V>,
    t: TypeNo,
    limit: Option<u64>,
    cursor: &mut MessageCursor,
) -> Result<Reply<V>, NoMemory>
    requires empty { list.items ≡ [] }
    requires lent { IsSome (shown (OfType t) lent.now) }
    ensures ran { IfOk result (λ reply. (writer : ℕ) (places : ℕ → ℕ) → places t ≡ cursor.old
        → OpRan V.values (Read t limit) writer places (with_place places t cursor.new)
        lent.now lent.now reply) }
    ensures refused { OnErr result ((places : ℕ → ℕ) → places t ≡ cursor.old
        → MayBeRefused V.values (Read t limit) places lent.now) }
    ensures err { OnErr result (cursor.new ≡ cursor.old) }
{
    Ok(Reply::Read(read_unread(list, messages_of(lent, t), cursor, limit)?))
}

pub(crate) fn len<V: Value>(lent: &Lent<V>, t: TypeNo, cursor: &MessageCursor) -> Reply<V>
    requires lent { IsSome (shown (OfType t) lent.now) }
    ensures ran { (writer : ℕ) (places : ℕ → ℕ) → places t ≡ cursor.now
        → OpRan V.values (Len t) writer places places lent.now lent.now result }
{
    Reply::Len(cursor.len(messages_of(lent, t)))
}

pub(crate) fn missed<V: Value>(lent: &Lent<V>, t: TypeNo, cursor: &MessageCursor) -> Reply<V>
    requires lent { IsSome (shown (OfType t) lent.now) }
    ensures ran { (writer : ℕ) (places : ℕ → ℕ) → places t ≡ cursor.now
        → OpRan V.values (Missed t) writer places places lent.now lent.now result }
{
    Reply::Missed(cursor.missed(messages_of(lent, t)))
}

pub(crate) fn clear<V: Value>(lent: &Lent<V>, t: TypeNo, cursor: &mut MessageCursor) -> Reply<V>
    requires lent { IsSome (shown (OfType t) lent.now) }
    ensures ran { (writer : ℕ) (places : ℕ → ℕ) → places t ≡ cursor.old
        → OpRan V.values (Clear t) writer places (with_place places t cursor.new)
        lent.now lent.now result }
{
    let messages = messages_of(lent, t);
    let missed = cursor.missed(messages);
    let first = cursor.place().max(messages.oldest());
    let n = cursor.len(messages);
    cursor.clear(messages);
    Reply::Cleared { missed, first, n }
}

pub(crate) fn forward<V: Value>(
    list: Vec<Record<V>>,
    lent: &mut Lent<V>,
    writer: u32,
    t: TypeNo,
    u: TypeNo,
    cursor: &mut MessageCursor,
) -> Result<Reply<V>, NoMemory>
    requires empty { list.items ≡ [] }
    requires read { IsSome (shown (OfType t) lent.old) }
    requires written { IsSome (writable (OfType u) lent.old) }
    ensures ran { IfOk result (λ reply. (places : ℕ → ℕ) → places t ≡ cursor.old
        → OpRan V.values (Forward t u) writer places (with_place places t cursor.new)
        lent.old lent.new reply) }
    ensures same { OnOk result (SameLoan lent.old lent.new) }
    ensures refused { OnErr result ((places : ℕ → ℕ) → places t ≡ cursor.old
        → MayBeRefused V.values (Forward t u) places lent.old) }
    ensures err { OnErr result (lent.new ≡ lent.old) }
    ensures err_cursor { OnErr result (cursor.new ≡ cursor.old) }
{
    let mut moved = *cursor;
    let took = read_unread(list, messages_of(lent, t), &mut moved, None)?;
    let message_of = |record: &Record<V>| Record {
        writer,
        value: record.value,
    };
    let wrote = write_each(lent, u, took.items.as_slice(), message_of)?;
    *cursor = moved;
    Ok(Reply::Forwarded { took, wrote })
}

pub(crate) fn sum<V: Value>(
    list: Vec<Record<V>>,
    lent: &mut Lent<V>,
    t: TypeNo,
    r: ResNo,
    cursor: &mut MessageCursor,
) -> Result<Reply<V>, NoMemory>
    requires empty { list.items ≡ [] }
    requires read { IsSome (shown (OfType t) lent.old) }
    requires written { IsSome (writable (OfResource r) lent.old) }
    ensures ran { IfOk result (λ reply. (writer : ℕ) (places : ℕ → ℕ) → places t ≡ cursor.old
        → OpRan V.values (Sum t r) writer places (with_place places t cursor.new)
        lent.old lent.new reply) }
    ensures same { OnOk result (SameLoan lent.old lent.new) }
    ensures refused { OnErr result ((places : ℕ → ℕ) → places t ≡ cursor.old
        → MayBeRefused V.values (Sum t r) places lent.old) }
    ensures err { OnErr result (lent.new ≡ lent.old) }
    ensures err_cursor { OnErr result (cursor.new ≡ cursor.old) }
{
    let took = read_unread(list, messages_of(lent, t), cursor, None)?;
    let value = added_up(value_of(lent, r), took.items.as_slice());
    set_value(lent, r, value);
    Ok(Reply::Summed { took, value })
}

pub(crate) fn get<V: Value>(lent: &Lent<V>, r: ResNo) -> Reply<V>
    requires lent { IsSome (shown (OfResource r) lent.now) }
    ensures ran { OpRan V.values (Get r) 0 nowhere nowhere lent.now lent.now result }
{
    Reply::Value(value_of(lent, r))
}

pub(crate) fn set<V: Value>(lent: &mut Lent<V>, r: ResNo, value: V) -> Reply<V>
    requires lent { IsSome (writable (OfResource r) lent.old) }
    ensures ran { OpRan V.values (Set r value) 0 nowhere nowhere lent.old lent.new result }
    ensures same { SameLoan lent.old lent.new }
{
    set_value(lent, r, value);
    Reply::Value(value)
}

pub(crate) fn add<V: Value>(lent: &mut Lent<V>, r: ResNo, value: V) -> Reply<V>
    requires lent { IsSome (writable (OfResource r) lent.old) }
    ensures ran { OpRan V.values (Add r value) 0 nowhere nowhere lent.old lent.new result }
    ensures same { SameLoan lent.old lent.new }
{
    let sum = value_of(lent, r).plus(value);
    set_value(lent, r, sum);
    Reply::Value(sum)
}

#[tactic(auto, using(crate::proofs::Lendings::of_loans))]
pub(crate) fn drain<V: Value>(
    list: Vec<Record<V>>,
    lent: &mut Lent<V>,
    t: TypeNo,
) -> Result<Reply<V>, NoMemory>
    requires empty { list.items ≡ [] }
    requires lent { IsSome (writable (OfType t) lent.old) }
    ensures ran { IfOk result (OpRan V.values (Drain t) 0 nowhere nowhere lent.old lent.new) }
    ensures same { OnOk result (SameLoan lent.old lent.new) }
    ensures refused { OnErr result (MayBeRefused V.values (Drain t) nowhere lent.old) }
    ensures err { OnErr result (lent.new ≡ lent.old) }
{
    match lent.writer(t) {
        None => unreachable!(),
        Some(messages) => {
            let mut from_oldest = MessageCursor::new(0);
            let all = read_unread(list, messages, &mut from_oldest, None)?;
            messages.clear();
            Ok(Reply::Drained {
                first: all.first,
                items: all.items,
            })
        }
    }
}

pub(crate) fn signal<V: Value>(lent: &mut Lent<V>) -> Reply<V>
    requires lent { IsSome (writable Registry lent.old) }
    ensures ran { OpRan V.values Signal 0 nowhere nowhere lent.old lent.new result }
    ensures same { SameLoan lent.old lent.new }
{
    let signalled = lent.signal();
    prove!(signalled);
    Reply::Signalled
}
