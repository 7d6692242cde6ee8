// Names at the end of a text. A number that names nothing in the scenario adds no text.
ghost use Rattle.std.specs.Prelude.{◌≡◌, ◌++◌, OnOk};
ghost use Rattle.msg_reading.specs.Prelude.{resource_name, system_name, type_name, writer_name};

use crate::{Name, Scenario};
use msg_world::{HOST, NoMemory, ResNo, TypeNo};

/// A name as it is.
pub fn add_name(text: &mut Vec<u8>, name: &Name) -> Result<(), NoMemory>
    ensures appends { OnOk result (text.new.items ≡ text.old.items ++ name.now) }
{
    text.extend_from_slice(name.as_str().as_bytes())
}

/// The name of a type; nothing if there is no such type.
pub fn add_type(text: &mut Vec<u8>, scenario: &Scenario, t: TypeNo) -> Result<(), NoMemory>
    ensures appends { OnOk result (text.new.items ≡ text.old.items ++ type_name scenario.now t) }
{
    match scenario.types.as_slice().get(t.number() as usize) {
        Some((name, _)) => add_name(text, name),
        None => Ok(()),
    }
}

/// The name of a resource; nothing if there is no such resource.
pub fn add_resource(text: &mut Vec<u8>, scenario: &Scenario, r: ResNo) -> Result<(), NoMemory>
    ensures appends { OnOk result
        (text.new.items ≡ text.old.items ++ resource_name scenario.now r) }
{
    match scenario.resources.as_slice().get(r.number() as usize) {
        Some((name, _)) => add_name(text, name),
        None => Ok(()),
    }
}

/// The name of a system; nothing if there is no such system.
pub fn add_system_name(text: &mut Vec<u8>, scenario: &Scenario, system: u32) -> Result<(), NoMemory>
    ensures appends { OnOk result
        (text.new.items ≡ text.old.items ++ system_name scenario.now system) }
{
    match scenario.systems.as_slice().get(system as usize) {
        Some(system) => add_name(text, &system.name),
        None => Ok(()),
    }
}

/// The name of a message's writer: of a system, or the host.
pub fn add_writer(text: &mut Vec<u8>, scenario: &Scenario, writer: u32) -> Result<(), NoMemory>
    ensures appends { OnOk result
        (text.new.items ≡ text.old.items ++ writer_name scenario.now writer) }
{
    if writer == HOST {
        text.extend_from_slice(b"host")
    } else {
        add_system_name(text, scenario, writer)
    }
}
