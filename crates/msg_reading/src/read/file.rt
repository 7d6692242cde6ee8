// The sections of a scenario file, one after another.
ghost use Rattle.std.specs.Prelude.{◌≡◌};
ghost use Rattle.serde_json.specs.View.{view};
ghost use Rattle.msg_json.specs.Prelude.{Reads};
ghost use Rattle.msg_reading.specs.ScenarioFormat as Spec;
ghost use Rattle.msg_reading.specs.inner.Elements.{ReadsWith};

use crate::limits::{MAX_FRAMES, MAX_RULES};
use crate::read::list::{read_list, read_list_if_there};
use crate::read::names::Declarations;
use crate::{Fault, Name, Scenario, SystemSpec};
use msg_frames::{Frame, Items};
use msg_json::fault::at_step;
use msg_json::json::{check_keys, needed};
use msg_json::{Key, PathStep, Reason, SCENARIO_KEYS};
use msg_order::Rule;
use msg_world::{MAX_RESOURCES, MAX_SYSTEMS, MAX_TYPES};
use serde_json::Value;
use std::alloc::Global;

/// The sections that a file needs.
#[derive(Clone, Copy)]
struct Sections<'a> {
    types: &'a Value,
    systems: &'a Value,
    frames: &'a Value,
}

/// Reads the sections of a file one after another: together they are the scenario. Whether it can
/// be run isn't asked.
pub fn read_sections(alloc: Global, file: &Value) -> Result<Scenario, Fault>
    ensures reads { Reads (Spec.scenario_of (view file.now)) result }
{
    check_keys(file, SCENARIO_KEYS)?;
    let sections = Sections {
        types: needed(file, Key::Types)?,
        systems: needed(file, Key::Systems)?,
        frames: needed(file, Key::Frames)?,
    };
    let mut names = Declarations::new(alloc);
    let scenario = read_in_turn(alloc, &mut names, sections, file);
    // Proof: what goes out of scope is followed through all its parts, and a call of `drop` isn't.
    drop(names);
    scenario
}

/// The sections of a file whose keys are known.
// Proof: owned names would be dropped at each `?`, and followed each time, so they are lent.
fn read_in_turn(
    alloc: Global,
    names: &mut Declarations,
    sections: Sections,
    file: &Value,
) -> Result<Scenario, Fault>
    requires none { names.old ≡ Spec.no_names }
    ensures reads { Reads (Spec.in_turn (view sections.entry.types.now)
        (view sections.entry.systems.now) (view sections.entry.frames.now) (view file.now))
        result }
{
    let types = read_types(alloc, names, sections.types)?;
    let resources = read_resources(alloc, names, file)?;
    let held = read_held(file)?;
    let systems = read_systems(alloc, names, sections.systems)?;
    let rules = read_rules(alloc, names, file)?;
    let frames = read_frames(alloc, names, sections.frames)?;
    Ok(Scenario {
        types,
        resources,
        held,
        systems,
        rules,
        frames,
    })
}

#[tactic(auto, using(crate::proofs::ListsInTurn::ReadsWith_at_step), unfolding(crate::specs::ScenarioFormat::types_of))]
fn read_types(
    alloc: Global,
    names: &mut Declarations,
    types: &Value,
) -> Result<Items<(Name, u64)>, Fault>
    ensures reads { ReadsWith (Spec.types_of names.old (view types.now)) names.new result }
{
    at_step(
        PathStep::Section(Key::Types),
        read_list(alloc, names, types, MAX_TYPES),
    )
}

#[tactic(auto, unfolding(crate::specs::ScenarioFormat::resources_of))]
fn read_resources(
    alloc: Global,
    names: &mut Declarations,
    file: &Value,
) -> Result<Items<(Name, i64)>, Fault>
    ensures reads { ReadsWith (Spec.resources_of names.old (view file.now)) names.new result }
{
    let list = file.get(Key::Resources.text());
    let resources = read_list_if_there(alloc, names, list, MAX_RESOURCES);
    at_step(PathStep::Section(Key::Resources), resources)
}

#[tactic(auto, unfolding(crate::specs::ScenarioFormat::held_of))]
fn read_held(file: &Value) -> Result<bool, Fault>
    ensures reads { result ≡ Spec.held_of (view file.now) }
{
    match file.get(Key::Held.text()) {
        Some(held) => {
            let held = held.as_bool().ok_or(Fault::here(Reason::Truth));
            at_step(PathStep::Section(Key::Held), held)
        }
        None => Ok(false),
    }
}

#[tactic(auto, using(crate::proofs::ListsInTurn::ReadsWith_at_step), unfolding(crate::specs::ScenarioFormat::systems_of))]
fn read_systems(
    alloc: Global,
    names: &mut Declarations,
    systems: &Value,
) -> Result<Items<SystemSpec>, Fault>
    ensures reads { ReadsWith (Spec.systems_of names.old (view systems.now)) names.new result }
{
    at_step(
        PathStep::Section(Key::Systems),
        read_list(alloc, names, systems, MAX_SYSTEMS),
    )
}

#[tactic(auto, unfolding(crate::specs::ScenarioFormat::rules_of))]
fn read_rules(alloc: Global, names: &mut Declarations, file: &Value) -> Result<Items<Rule>, Fault>
    ensures reads { ReadsWith (Spec.rules_of names.old (view file.now)) names.new result }
{
    let list = file.get(Key::Rules.text());
    let rules = read_list_if_there(alloc, names, list, MAX_RULES);
    at_step(PathStep::Section(Key::Rules), rules)
}

#[tactic(auto, using(crate::proofs::ListsInTurn::ReadsWith_at_step), unfolding(crate::specs::ScenarioFormat::frames_of))]
fn read_frames(
    alloc: Global,
    names: &mut Declarations,
    frames: &Value,
) -> Result<Items<Frame>, Fault>
    ensures reads { ReadsWith (Spec.frames_of names.old (view frames.now)) names.new result }
{
    at_step(
        PathStep::Section(Key::Frames),
        read_list(alloc, names, frames, MAX_FRAMES),
    )
}
