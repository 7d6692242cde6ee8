// A system's conditions, the frame that it joins with, and where its cursors start.
ghost use Rattle.std.specs.Prelude.{◌≡◌};
ghost use Rattle.serde_json.specs.View.{view, number_view};
ghost use Rattle.msg_json.specs.Prelude.{in_key};
ghost use Rattle.msg_reading.specs.{ScenarioFormat.conditions_of, ScenarioFormat.join_number, ScenarioFormat.join_of, ScenarioFormat.start_of, inner.Elements.ReadsWith};

use crate::Fault;
use crate::limits::MAX_CONDITIONS;
use crate::read::list::read_list_if_there;
use crate::read::names::Declarations;
use msg_frames::{Items, LAST_JOIN};
use msg_json::fault::at_step;
use msg_json::numbers::number;
use msg_json::{Key, PathStep, Reason};
use msg_system::{Condition, Start};
use serde_json::{Number, Value};
use std::alloc::Global;

/// The conditions of a system.
#[tactic(auto, using(crate::proofs::ListsInTurn::ReadsWith_at_step))]
pub fn read_conditions(
    alloc: Global,
    names: &mut Declarations,
    system: &Value,
) -> Result<Items<Condition>, Fault>
    ensures reads { ReadsWith (in_key Key.If (conditions_of names.old (view system.now)))
        names.new result }
{
    at_step(PathStep::Key(Key::If), conditions_in(alloc, names, system))
}

fn conditions_in(
    alloc: Global,
    names: &mut Declarations,
    system: &Value,
) -> Result<Items<Condition>, Fault>
    ensures reads { ReadsWith (conditions_of names.old (view system.now)) names.new result }
{
    read_list_if_there(alloc, names, system.get(Key::If.text()), MAX_CONDITIONS)
}

/// The frame that a system joins with: 1 if none is named.
pub fn read_join(system: &Value) -> Result<u32, Fault>
    ensures reads { result ≡ join_of (view system.now) }
{
    let Some(join) = system.get(Key::Join.text()) else {
        return Ok(1);
    };
    join_number(number(join)?)
}

fn join_number(n: &Number) -> Result<u32, Fault>
    ensures reads { result ≡ join_number (number_view n.now) }
{
    match n.as_i64() {
        Some(k) if 1 <= k && k <= i64::from(LAST_JOIN) => Ok(k as u32),
        _ => Err(Fault::here(Reason::Join)),
    }
}

/// Where the cursors of a system start.
pub fn read_start(system: &Value) -> Result<Start, Fault>
    ensures reads { result ≡ start_of (view system.now) }
{
    let Some(start) = system.get(Key::Start.text()) else {
        return Ok(Start::Zero);
    };
    match start.as_str() {
        Some("zero") => Ok(Start::Zero),
        Some("current") => Ok(Start::Current),
        _ => Err(Fault::here(Reason::Start)),
    }
}
