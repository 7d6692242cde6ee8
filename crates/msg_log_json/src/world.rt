// What a frame leaves of each type and of each resource.
ghost use Rattle.std.specs.Prelude.{◌≡◌, ◌++◌, ◌<◌, ◌≤◌, OnOk, codes, length};
ghost use Rattle.msg_world.specs.{Prelude.slot, declared.part.Part.TheVariants.OfResource, declared.part.Part.TheVariants.OfType};
ghost use Rattle.msg_log_json.specs.Prelude.{kept_json, numbered};
ghost use Rattle.msg_log_json.specs.inner.KeptJson as Spec;

use crate::list::add_comma;
use msg_buffer::NoMemory;
use msg_json::numerals::{add_count, add_value};
use msg_reading::names::add_name;
use msg_reading::{Name, Scenario};
use msg_world::{MAX_RESOURCES, MAX_TYPES, ResNo, TypeNo, World};

/// Of each type the oldest message that is kept, and how many were written.
#[tactic(auto, unfolding(crate::specs::inner::KeptJson::types_kept))]
pub fn add_types(text: &mut Vec<u8>, scenario: &Scenario, world: &World) -> Result<(), NoMemory>
    requires few { length scenario.now.types ≤ MAX_TYPES }
    ensures appends { OnOk result
        (text.new.items ≡ text.old.items ++ Spec.types_kept scenario.now world.now) }
{
    add_each_type(text, scenario.types.as_slice(), world)
}

fn add_each_type(text: &mut Vec<u8>, types: &[(Name, u64)], world: &World) -> Result<(), NoMemory>
    requires few { length types.now ≤ MAX_TYPES }
    ensures appends { OnOk result (text.new.items ≡ text.old.items
        ++ numbered (λ x. Spec.type_kept x.1.0 (slot (OfType x.0) world.now)) types.now) }
{
    for (k, named) in types.iter().enumerate() {
        add_comma(text, k)?;
        add_type(text, &named.0, k as u32, world)?;
    }
    Ok(())
}

fn add_type(text: &mut Vec<u8>, name: &Name, t: u32, world: &World) -> Result<(), NoMemory>
    requires few { t < MAX_TYPES }
    ensures appends { OnOk result (text.new.items
        ≡ text.old.items ++ Spec.type_kept name.now (slot (OfType t) world.now)) }
{
    let Some(t) = TypeNo::new(t) else {
        unreachable!()
    };
    match world.messages(t) {
        Some(messages) => add_kept(text, name, messages.oldest(), messages.count()),
        None => Ok(()),
    }
}

/// A type with the number of the oldest message that is kept, and how many were written.
#[tactic(auto, unfolding(crate::specs::LogJson::kept_json))]
fn add_kept(text: &mut Vec<u8>, name: &Name, oldest: u64, written: u64) -> Result<(), NoMemory>
    ensures appends { OnOk result
        (text.new.items ≡ text.old.items ++ kept_json name.now oldest written) }
{
    text.extend_from_slice(b"\"")?;
    add_name(text, name)?;
    add_count(text, b"\":{\"oldest\":", oldest)?;
    add_count(text, b",\"written\":", written)?;
    text.extend_from_slice(b"}")
}

/// The value of each resource.
#[tactic(auto, unfolding(crate::specs::inner::KeptJson::resources_kept))]
pub fn add_resources(text: &mut Vec<u8>, scenario: &Scenario, world: &World) -> Result<(), NoMemory>
    requires few { length scenario.now.resources ≤ MAX_RESOURCES }
    ensures appends { OnOk result
        (text.new.items ≡ text.old.items ++ Spec.resources_kept scenario.now world.now) }
{
    add_each_resource(text, scenario.resources.as_slice(), world)
}

fn add_each_resource(
    text: &mut Vec<u8>,
    resources: &[(Name, i64)],
    world: &World,
) -> Result<(), NoMemory>
    requires few { length resources.now ≤ MAX_RESOURCES }
    ensures appends { OnOk result (text.new.items ≡ text.old.items
        ++ numbered (λ x. Spec.resource_kept x.1.0 (slot (OfResource x.0) world.now))
        resources.now) }
{
    for (k, named) in resources.iter().enumerate() {
        add_comma(text, k)?;
        add_resource(text, &named.0, k as u32, world)?;
    }
    Ok(())
}

fn add_resource(text: &mut Vec<u8>, name: &Name, r: u32, world: &World) -> Result<(), NoMemory>
    requires few { r < MAX_RESOURCES }
    ensures appends { OnOk result (text.new.items
        ≡ text.old.items ++ Spec.resource_kept name.now (slot (OfResource r) world.now)) }
{
    let Some(r) = ResNo::new(r) else {
        unreachable!()
    };
    let Some(value) = world.resource(r) else {
        return Ok(());
    };
    text.extend_from_slice(b"\"")?;
    add_name(text, name)?;
    text.extend_from_slice(b"\":")?;
    add_value(text, value)
}
