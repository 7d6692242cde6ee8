// One op, by its head and the number of parts that follow it.
ghost use Rattle.std.specs.Prelude.{◌≡◌, map};
ghost use Rattle.serde_json.specs.View.{view};
ghost use Rattle.msg_json.specs.Prelude.{Reads};
ghost use Rattle.msg_reading.specs.ScenarioFormat as Spec;

use crate::Fault;
use crate::read::list::Element;
use crate::read::names::Declarations;
use crate::read::part::{
    one_resource, one_type, resource_and_value, two_types, type_and_limit, type_and_resource,
    type_and_value, type_and_values,
};
use msg_json::fault::at_step;
use msg_json::json::head_and_parts;
use msg_json::{PathStep, Reason};
use msg_system::Op;
use serde_json::Value;
use std::alloc::Global;

impl Element for Op {
    ghost reads = { Spec.op_at };

    fn read(alloc: Global, names: &mut Declarations, n: usize, value: &Value) -> Result<Op, Fault> {
        at_step(PathStep::Item(n), read_op(alloc, names, value))
    }
}

fn read_op(alloc: Global, names: &Declarations, value: &Value) -> Result<Op, Fault>
    ensures reads { Reads (Spec.op_of names.now (view value.now)) result }
{
    let (head, parts) = head_and_parts(value)?;
    read_parts(alloc, names, head, parts)
}

fn read_parts(alloc: Global, names: &Declarations, head: &str, parts: &[Value]) -> Result<Op, Fault>
    ensures reads { Reads (Spec.op_with names.now head.now (map view parts.now)) result }
{
    match parts {
        [] => read_bare(head),
        [part] => read_with_one(names, head, part),
        [part, other] => read_with_two(alloc, names, head, part, other),
        [_, _, _, ..] => Err(Fault::here(Reason::Parts)),
    }
}

fn read_bare(head: &str) -> Result<Op, Fault>
    ensures reads { result ≡ Spec.bare_op head.now }
{
    match head {
        "signal" => Ok(Op::Signal),
        _ => Err(Fault::here(Reason::Parts)),
    }
}

fn read_with_one(names: &Declarations, head: &str, part: &Value) -> Result<Op, Fault>
    ensures reads { result ≡ Spec.op_with_one names.now head.now (view part.now) }
{
    match head {
        "read" => Ok(Op::Read(one_type(names, part)?, None)),
        "len" => Ok(Op::Len(one_type(names, part)?)),
        "missed" => Ok(Op::Missed(one_type(names, part)?)),
        "clear" => Ok(Op::Clear(one_type(names, part)?)),
        "get" => Ok(Op::Get(one_resource(names, part)?)),
        "drain" => Ok(Op::Drain(one_type(names, part)?)),
        _ => Err(Fault::here(Reason::Parts)),
    }
}

fn read_with_two(
    alloc: Global,
    names: &Declarations,
    head: &str,
    part: &Value,
    other: &Value,
) -> Result<Op, Fault>
    ensures reads { Reads (Spec.op_with_two names.now head.now (view part.now) (view other.now))
        result }
{
    match head {
        "write" => {
            let (of_type, value) = type_and_value(names, 1, part, other)?;
            Ok(Op::Write(of_type, value))
        }
        "batch" => {
            let (of_type, values) = type_and_values(alloc, names, part, other)?;
            Ok(Op::Batch(of_type, values))
        }
        "read" => {
            let (of_type, limit) = type_and_limit(names, part, other)?;
            Ok(Op::Read(of_type, Some(u64::from(limit))))
        }
        "forward" => {
            let (from, to) = two_types(names, part, other)?;
            Ok(Op::Forward(from, to))
        }
        "sum" => {
            let (of_type, resource) = type_and_resource(names, part, other)?;
            Ok(Op::Sum(of_type, resource))
        }
        "set" => {
            let (resource, value) = resource_and_value(names, part, other)?;
            Ok(Op::Set(resource, value))
        }
        "add" => {
            let (resource, value) = resource_and_value(names, part, other)?;
            Ok(Op::Add(resource, value))
        }
        _ => Err(Fault::here(Reason::Parts)),
    }
}
