// One type or one resource: a name and a number.
ghost use Rattle.std.specs.Prelude.{◌≡◌};
ghost use Rattle.serde_json.specs.View.{view};
ghost use Rattle.msg_reading.specs.{ScenarioFormat.resource_at, ScenarioFormat.resource_of, ScenarioFormat.type_at, ScenarioFormat.type_of, inner.Elements.ReadsWith};

use crate::read::list::Element;
use crate::read::names::Declarations;
use crate::read::part::pair;
use crate::{Fault, Name};
use msg_json::fault::at_step;
use msg_json::json::text;
use msg_json::numbers::{number, small_number, whole_number};
use msg_json::{MAX_LIMIT, PathStep};
use serde_json::Value;
use std::alloc::Global;

impl Element for (Name, u64) {
    ghost reads = { type_at };

    fn read(
        alloc: Global,
        names: &mut Declarations,
        n: usize,
        value: &Value,
    ) -> Result<(Name, u64), Fault> {
        at_step(PathStep::Element(n), read_type(alloc, names, value))
    }
}

fn read_type(alloc: Global, names: &mut Declarations, value: &Value) -> Result<(Name, u64), Fault>
    ensures reads { ReadsWith (type_of names.old (view value.now)) names.new result }
{
    let (name, limit) = pair(value)?;
    let name = at_step(PathStep::Part(0), text(name))?;
    let limit = at_step(PathStep::Part(1), number(limit))?;
    let name = at_step(PathStep::Part(0), names.declare_type(alloc, name))?;
    let limit = at_step(PathStep::Part(1), small_number(limit, MAX_LIMIT + 1))?;
    Ok((name, u64::from(limit)))
}

impl Element for (Name, i64) {
    ghost reads = { resource_at };

    fn read(
        alloc: Global,
        names: &mut Declarations,
        n: usize,
        value: &Value,
    ) -> Result<(Name, i64), Fault> {
        at_step(PathStep::Element(n), read_resource(alloc, names, value))
    }
}

fn read_resource(
    alloc: Global,
    names: &mut Declarations,
    value: &Value,
) -> Result<(Name, i64), Fault>
    ensures reads { ReadsWith (resource_of names.old (view value.now)) names.new result }
{
    let (name, value) = pair(value)?;
    let name = at_step(PathStep::Part(0), text(name))?;
    let value = at_step(PathStep::Part(1), number(value))?;
    let name = at_step(PathStep::Part(0), names.declare_resource(alloc, name))?;
    let value = at_step(PathStep::Part(1), whole_number(value))?;
    Ok((name, value))
}
