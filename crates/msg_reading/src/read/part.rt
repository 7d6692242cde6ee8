// The parts of a list: what they are, and then what they mean. m is the number of the first.
ghost use Rattle.std.specs.Prelude.{◌≡◌, ◌≤◌};
ghost use Rattle.serde_json.specs.View.{view};
ghost use Rattle.msg_json.specs.Prelude.{Reads, elements};
ghost use Rattle.msg_reading.specs.ScenarioFormat as Spec;
ghost use Rattle.msg_reading.specs.PartsSeen.{pair_seen};

use crate::Fault;
use crate::read::names::Declarations;
use msg_json::fault::at_step;
use msg_json::json::text;
use msg_json::numbers::{batch_values, list_of_numbers, number, small_number, whole_number};
use msg_json::{MAX_LIMIT, PathStep, Reason};
use msg_world::{Items, ResNo, TypeNo};
use serde_json::Value;
use std::alloc::Global;

/// The two elements of a list of two.
#[tactic(auto, using(msg_json::proofs::WalksOverLists::list_steps))]
pub fn pair(value: &Value) -> Result<(&Value, &Value), Fault>
    ensures pair { pair_seen result ≡ Spec.two (elements (view value.now)) }
{
    let Some(items) = value.as_array() else {
        return Err(Fault::here(Reason::Parts));
    };
    let items = items.as_slice();
    if items.len() != 2 {
        return Err(Fault::here(Reason::Parts));
    }
    Ok((&items[0], &items[1]))
}

/// A type and a value.
pub fn type_and_value(
    names: &Declarations,
    m: usize,
    of_type: &Value,
    value: &Value,
) -> Result<(TypeNo, i64), Fault>
    requires few { m ≤ 1 }
    ensures are { result
        ≡ Spec.type_and_value names.now m (view of_type.now) (view value.now) }
{
    let name = at_step(PathStep::Part(m), text(of_type))?;
    let value = at_step(PathStep::Part(m + 1), number(value))?;
    let of_type = at_step(PathStep::Part(m), names.type_no(name))?;
    Ok((
        of_type,
        at_step(PathStep::Part(m + 1), whole_number(value))?,
    ))
}

/// A resource and a value.
pub fn resource_and_value(
    names: &Declarations,
    resource: &Value,
    value: &Value,
) -> Result<(ResNo, i64), Fault>
    ensures are { result
        ≡ Spec.resource_and_value names.now (view resource.now) (view value.now) }
{
    let name = at_step(PathStep::Part(1), text(resource))?;
    let value = at_step(PathStep::Part(2), number(value))?;
    let resource = at_step(PathStep::Part(1), names.res_no(name))?;
    Ok((resource, at_step(PathStep::Part(2), whole_number(value))?))
}

/// A part that is a type.
pub fn one_type(names: &Declarations, part: &Value) -> Result<TypeNo, Fault>
    ensures is { result ≡ Spec.type_part names.now (view part.now) }
{
    at_step(PathStep::Part(1), type_in(names, part))
}

fn type_in(names: &Declarations, value: &Value) -> Result<TypeNo, Fault>
    ensures is { result ≡ Spec.type_in names.now (view value.now) }
{
    names.type_no(text(value)?)
}

/// A part that is a resource.
pub fn one_resource(names: &Declarations, part: &Value) -> Result<ResNo, Fault>
    ensures is { result ≡ Spec.resource_part names.now (view part.now) }
{
    at_step(PathStep::Part(1), resource_in(names, part))
}

fn resource_in(names: &Declarations, value: &Value) -> Result<ResNo, Fault>
    ensures is { result ≡ Spec.resource_in names.now (view value.now) }
{
    names.res_no(text(value)?)
}

/// A type, and how many messages are read at most.
pub fn type_and_limit(
    names: &Declarations,
    of_type: &Value,
    limit: &Value,
) -> Result<(TypeNo, u32), Fault>
    ensures are { result ≡ Spec.type_and_limit names.now (view of_type.now) (view limit.now) }
{
    let name = at_step(PathStep::Part(1), text(of_type))?;
    let limit = at_step(PathStep::Part(2), number(limit))?;
    let of_type = at_step(PathStep::Part(1), names.type_no(name))?;
    Ok((
        of_type,
        at_step(PathStep::Part(2), small_number(limit, MAX_LIMIT + 1))?,
    ))
}

/// A type and the values of a batch.
pub fn type_and_values(
    alloc: Global,
    names: &Declarations,
    of_type: &Value,
    values: &Value,
) -> Result<(TypeNo, Items<i64>), Fault>
    ensures are { Reads (Spec.type_and_values names.now (view of_type.now) (view values.now))
        result }
{
    let name = at_step(PathStep::Part(1), text(of_type))?;
    let values = at_step(PathStep::Part(2), list_of_numbers(values))?;
    let of_type = at_step(PathStep::Part(1), names.type_no(name))?;
    Ok((
        of_type,
        at_step(PathStep::Part(2), batch_values(alloc, values))?,
    ))
}

/// Two types.
pub fn two_types(names: &Declarations, from: &Value, to: &Value) -> Result<(TypeNo, TypeNo), Fault>
    ensures are { result ≡ Spec.two_types names.now (view from.now) (view to.now) }
{
    let from = at_step(PathStep::Part(1), text(from))?;
    let to = at_step(PathStep::Part(2), text(to))?;
    let from = at_step(PathStep::Part(1), names.type_no(from))?;
    Ok((from, at_step(PathStep::Part(2), names.type_no(to))?))
}

/// A type and a resource.
pub fn type_and_resource(
    names: &Declarations,
    of_type: &Value,
    resource: &Value,
) -> Result<(TypeNo, ResNo), Fault>
    ensures are { result
        ≡ Spec.type_and_resource names.now (view of_type.now) (view resource.now) }
{
    let of_type = at_step(PathStep::Part(1), text(of_type))?;
    let resource = at_step(PathStep::Part(2), text(resource))?;
    let of_type = at_step(PathStep::Part(1), names.type_no(of_type))?;
    Ok((of_type, at_step(PathStep::Part(2), names.res_no(resource))?))
}
