// One condition: a probe, and the `not`s round it.
ghost use Rattle.std.specs.Prelude.{◌≡◌, map, option_map};
ghost use Rattle.serde_json.specs.View.{view};
ghost use Rattle.msg_reading.specs.ScenarioFormat as Spec;

use crate::Fault;
use crate::limits::{MAX_NOTS, MOST_NESTED};
use crate::read::list::Element;
use crate::read::names::Declarations;
use msg_json::fault::at_step;
use msg_json::json::{head_and_parts, text};
use msg_json::numbers::{number, whole_number};
use msg_json::{PathStep, Reason};
use msg_system::{Condition, Probe};
use serde_json::Value;
use std::alloc::Global;

impl Element for Condition {
    ghost reads = { Spec.condition_at };

    fn read(
        _alloc: Global,
        names: &mut Declarations,
        n: usize,
        value: &Value,
    ) -> Result<Condition, Fault> {
        let (nots, innermost) = inside_nots(value);
        let probe = at_step(PathStep::Item(n), probe_in(names, nots, innermost))?;
        Ok(Condition { nots, probe })
    }
}

/// What is asked for inside so many `not`s.
fn probe_in(names: &Declarations, nots: u8, innermost: &Value) -> Result<Probe, Fault>
    ensures reads { result ≡ Spec.probe_in names.now nots (view innermost.now) }
{
    let (head, parts) = at_step(PathStep::Nots(nots), head_and_parts(innermost))?;
    read_probe(names, nots, head, parts)
}

/// How many `not`s there are round a value, and what is inside.
fn inside_nots(value: &Value) -> (u8, &Value)
    ensures nots { result.0 ≡ Spec.nots_round MOST_NESTED (view value.now) }
    ensures inside { view result.1.now ≡ Spec.inside_nots MOST_NESTED (view value.now) }
{
    let mut inside = value;
    for nots in 0..MOST_NESTED {
        let Some(inner) = in_not(inside) else {
            return (nots, inside);
        };
        inside = inner;
    }
    (MOST_NESTED, inside)
}

/// What a `not` has in it.
fn in_not(value: &Value) -> Option<&Value>
    ensures inside { option_map (λ v. view v.now) result ≡ Spec.in_not (view value.now) }
{
    match head_and_parts(value) {
        Ok(("not", [part])) => Some(part),
        _ => None,
    }
}

/// A probe of this head and these parts, with so many `not`s round it.
fn read_probe(names: &Declarations, nots: u8, head: &str, parts: &[Value]) -> Result<Probe, Fault>
    ensures reads { result ≡ Spec.probe_with names.now nots head.now (map view parts.now) }
{
    match (head, parts) {
        ("on_message", [part]) => read_on_message(names, nots, part),
        ("resource_equals", [part, other]) => read_resource_equals(names, nots, part, other),
        _ => at_step(PathStep::Nots(nots), Err(Fault::here(Reason::Parts))),
    }
}

/// Checks that there are few enough `not`s.
fn few_nots(nots: u8) -> Result<(), Fault>
    ensures few { result ≡ Spec.few_nots nots }
{
    if nots > MAX_NOTS {
        return Err(Fault::here(Reason::AtMost(usize::from(MAX_NOTS))));
    }
    Ok(())
}

fn read_on_message(names: &Declarations, nots: u8, part: &Value) -> Result<Probe, Fault>
    ensures reads { result ≡ Spec.on_message names.now nots (view part.now) }
{
    let name = at_step(PathStep::Nots(nots), at_step(PathStep::Part(1), text(part)))?;
    few_nots(nots)?;
    let of_type = at_step(
        PathStep::Nots(nots),
        at_step(PathStep::Part(1), names.type_no(name)),
    )?;
    Ok(Probe::OnMessage(of_type))
}

fn read_resource_equals(
    names: &Declarations,
    nots: u8,
    part: &Value,
    other: &Value,
) -> Result<Probe, Fault>
    ensures reads { result
        ≡ Spec.resource_equals names.now nots (view part.now) (view other.now) }
{
    let name = at_step(PathStep::Part(1), text(part));
    let name = at_step(PathStep::Nots(nots), name)?;
    let value = at_step(PathStep::Part(2), number(other));
    let value = at_step(PathStep::Nots(nots), value)?;
    few_nots(nots)?;
    let resource = at_step(
        PathStep::Nots(nots),
        at_step(PathStep::Part(1), names.res_no(name)),
    )?;
    let value = at_step(
        PathStep::Nots(nots),
        at_step(PathStep::Part(2), whole_number(value)),
    )?;
    Ok(Probe::ResourceEquals(resource, value))
}
