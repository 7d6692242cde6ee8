// The names that a file declares.
ghost use Rattle.std.specs.Prelude.{◌≡◌, ◌≤◌, ◌∷◌, ◌++◌, [], OnOk, option_and_then};
ghost use Rattle.msg_reading.specs.Declarations.{position_of};
ghost use Rattle.msg_reading.specs.ScenarioFormat as Spec;
ghost use Rattle.msg_json.specs.Prelude.{Reads, only_below};

use crate::{Fault, Name};
use indexmap::IndexSet;
use msg_json::{Reason, Refusal};
use msg_world::{MAX_RESOURCES, MAX_SYSTEMS, MAX_TYPES, ResNo, TypeNo};
use std::alloc::Global;
use std::marker::Model;

/// The name with this text.
fn good_name(alloc: Global, text: &str) -> Result<Name, Fault>
    ensures name { Reads (Spec.good_name text.now) result }
{
    match Name::new(alloc, text) {
        Ok(name) => Ok(name),
        Err(Refusal::BadName) => Err(Fault::here(Reason::BadName)),
        Err(_) => Err(Fault::here(Reason::NoMemory)),
    }
}

/// Names in order, each once. Contracts see it as their list.
#[derive(Drop)]
pub struct NameSpace {
    names: IndexSet<String>,
}

impl Model for NameSpace {
    ghost use Rattle.std.specs.Prelude.{List, map, string_bytes};
    ghost use Rattle.msg_json.specs.Prelude.{Text};

    ghost Value = { List Text };

    ghost view = { λ s. map string_bytes s.names.keys };
}

impl NameSpace {
    fn new(alloc: Global) -> NameSpace
        ensures empty { result ≡ [] }
    {
        NameSpace {
            names: IndexSet::new(alloc),
        }
    }

    /// The place of a name.
    fn place(&self, name: &str) -> Option<usize>
        ensures place { result ≡ position_of self.now name.now }
    {
        self.names.get_index_of(name)
    }

    /// The place of a name, if that is below an end.
    fn place_below(&self, name: &str, end: usize) -> Option<u32>
        requires few { end ≤ MAX_SYSTEMS }
        ensures place { result
            ≡ option_and_then (only_below end) (position_of self.now name.now) }
    {
        match self.place(name) {
            Some(place) if place < end => Some(place as u32),
            _ => None,
        }
    }

    /// A new name, which goes last.
    fn declare(&mut self, alloc: Global, name: &str) -> Result<Name, Fault>
        ensures name { Reads (Spec.new_name self.old name.now) result }
        ensures declares { OnOk result (self.new ≡ self.old ++ name.now ∷ []) }
    {
        let made = good_name(alloc, name)?;
        if let Some(n) = self.place(name) {
            return Err(Fault::here(Reason::StandsAt(n)));
        }
        let key = name.to_string(alloc)?;
        self.names.insert(key)?;
        Ok(made)
    }
}

/// The names that are declared so far, of three kinds.
#[derive(Drop)]
pub struct Declarations {
    types: NameSpace,
    resources: NameSpace,
    systems: NameSpace,
}

impl Model for Declarations {
    ghost use Rattle.msg_reading.specs.Declarations.{Declared};

    ghost Value = { Declared };

    ghost view = { λ d.
        record { types = d.types; resources = d.resources; systems = d.systems } };
}

impl Declarations {
    /// No names.
    pub fn new(alloc: Global) -> Declarations
        ensures empty { result ≡ Spec.no_names }
    {
        Declarations {
            types: NameSpace::new(alloc),
            resources: NameSpace::new(alloc),
            systems: NameSpace::new(alloc),
        }
    }

    /// The type of this name.
    pub fn type_no(&self, name: &str) -> Result<TypeNo, Fault>
        ensures named { result ≡ Spec.type_named self.now name.now }
    {
        let place = self.types.place_below(name, MAX_TYPES);
        place
            .and_then(TypeNo::new)
            .ok_or(Fault::here(Reason::NoType))
    }

    /// The resource of this name.
    pub fn res_no(&self, name: &str) -> Result<ResNo, Fault>
        ensures named { result ≡ Spec.resource_named self.now name.now }
    {
        let place = self.resources.place_below(name, MAX_RESOURCES);
        place
            .and_then(ResNo::new)
            .ok_or(Fault::here(Reason::NoResource))
    }

    /// The number of the system of this name.
    pub fn system_no(&self, name: &str) -> Result<u32, Fault>
        ensures named { result ≡ Spec.system_named self.now name.now }
    {
        let place = self.systems.place_below(name, MAX_SYSTEMS);
        place.ok_or(Fault::here(Reason::NoSystem))
    }

    /// Names the next type.
    pub fn declare_type(&mut self, alloc: Global, name: &str) -> Result<Name, Fault>
        ensures name { Reads (Spec.new_name self.old.types name.now) result }
        ensures declares { OnOk result
            (self.new ≡ record self.old { types = self.old.types ++ name.now ∷ [] }) }
    {
        self.types.declare(alloc, name)
    }

    /// Names the next resource, as `declare_type` does a type.
    pub fn declare_resource(&mut self, alloc: Global, name: &str) -> Result<Name, Fault>
        ensures name { Reads (Spec.new_name self.old.resources name.now) result }
        ensures declares { OnOk result
            (self.new ≡ record self.old { resources = self.old.resources ++ name.now ∷ [] }) }
    {
        self.resources.declare(alloc, name)
    }

    /// Names the next system, as `declare_type` does a type.
    pub fn declare_system(&mut self, alloc: Global, name: &str) -> Result<Name, Fault>
        ensures name { Reads (Spec.new_name self.old.systems name.now) result }
        ensures declares { OnOk result (self.new ≡ Spec.with_system self.old name.now) }
    {
        self.systems.declare(alloc, name)
    }
}
