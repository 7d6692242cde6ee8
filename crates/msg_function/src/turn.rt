// The ops of a turn: what is read, and what is written.
ghost use Rattle.std.specs.Prelude.{◌≡◌, [], ◌∷◌, All, IfSome, IsNone, IsSome, OnOk, map, option_to_list};
ghost use Rattle.msg_world.specs.Prelude.{shown, writable};
ghost use Rattle.msg_system.specs.Prelude.{Covers, op_needs};
ghost use Rattle.msg_function.specs.Functions.{part_of, read_op, written_op};
ghost use Rattle.msg_function.specs.inner.Runs.{OpsRan, restored};

use crate::identity::Identity;
use crate::{NoMemory, Port};
use msg_system::{Items, Op, Reply};
use msg_world::{Lent, Value};
use std::alloc::Global;
use std::mem::replace;

/// Does an op, and appends its reply.
#[inline(always)]
fn do_op<V: Value>(
    alloc: Global,
    op: &Op<V>,
    me: &mut Identity,
    lent: &mut Lent<V>,
    out: &mut Vec<Reply<V>>,
) -> Result<(), NoMemory>
    requires covers { Covers (op_needs op.now) lent.old }
    ensures ran { OnOk result (OpsRan V.values (op.now ∷ []) me.old me.new lent.old lent.new
        out.old.items out.new.items) }
{
    out.reserve(1)?;
    out.push_reserved(op.run(alloc, me.writer, &mut me.cursors, lent)?);
    Ok(())
}

/// The op that reads a part.
fn read_op<V: Value>(port: Port) -> Op<V>
    ensures op { result ≡ read_op port }
{
    match port {
        Port::Messages(t) => Op::Read(t, None),
        Port::Resource(r) => Op::Get(r),
    }
}

/// Reads each of these parts.
#[inline(always)]
pub(crate) fn read_ports<V: Value>(
    alloc: Global,
    ports: &[Port],
    me: &mut Identity,
    lent: &mut Lent<V>,
    out: &mut Vec<Reply<V>>,
) -> Result<(), NoMemory>
    requires shown { All (λ port. IsSome (shown (part_of port) lent.old)) ports.now }
    ensures ran { OnOk result (OpsRan V.values (map read_op ports.now) me.old me.new
        lent.old lent.new out.old.items out.new.items) }
{
    for port in ports {
        do_op(alloc, &read_op(*port), me, lent, out)?;
    }
    Ok(())
}

/// The op that writes these values to a part, if there are some. A batch takes them out of the
/// list.
fn op_to<V: Value>(alloc: Global, port: Port, list: &mut Vec<V>) -> Option<Op<V>>
    ensures op { option_to_list result ≡ written_op port list.old.items }
    ensures left { IfSome result (λ op. restored op list.new.items ≡ list.old.items) }
    ensures none { IsNone result → list.new.items ≡ list.old.items }
{
    let last = *list.as_slice().last()?;
    Some(match port {
        Port::Messages(t) => Op::Batch(t, Items::from_vec(replace(list, Vec::new(alloc)))),
        Port::Resource(r) => Op::Set(r, last),
    })
}

/// Gives the list back the values that a batch took.
fn give_back<V: Value>(op: Op<V>, list: &mut Vec<V>)
    ensures items { list.new.items ≡ restored op list.old.items }
{
    if let Op::Batch(_, values) = op {
        *list = values.into_vec();
    }
}

/// Writes these values to a part, if there are some.
#[inline(always)]
pub(crate) fn write_list<V: Value>(
    alloc: Global,
    port: Port,
    list: &mut Vec<V>,
    me: &mut Identity,
    lent: &mut Lent<V>,
    out: &mut Vec<Reply<V>>,
) -> Result<(), NoMemory>
    requires written { IsSome (writable (part_of port) lent.old) }
    ensures ran { OnOk result (OpsRan V.values (written_op port list.old.items) me.old me.new
        lent.old lent.new out.old.items out.new.items) }
    ensures list { OnOk result (list.new.items ≡ list.old.items) }
{
    let Some(op) = op_to(alloc, port, list) else {
        return Ok(());
    };
    do_op(alloc, &op, me, lent, out)?;
    give_back(op, list);
    Ok(())
}
