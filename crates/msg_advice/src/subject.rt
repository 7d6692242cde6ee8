// Whose plan is told: what its parts are called, and who uses them.
use crate::names::{resource_name, system_name, type_name};
use crate::planned::Planned;
use crate::uses::{Use, uses};
use msg_frames::Arrangement;
use msg_names::{Name, Names};
use msg_order::Rule;
use msg_reading::Scenario;
use msg_world::{MAX_RESOURCES, MAX_TYPES, NoMemory, ResNo, TypeNo};
use std::alloc::Global;

/// A scenario, or what an engine tells of itself beside its names.
#[derive(Clone, Copy)]
pub(crate) enum Subject<'a> {
    Scenario(&'a Scenario),
    Engine(&'a Arrangement<'a>, &'a Names<'a>),
}

/// A plan, and whose it is.
#[derive(Clone, Copy)]
pub(crate) struct Told<'a> {
    pub planned: &'a Planned,
    pub subject: Subject<'a>,
}

impl<'a> Subject<'a> {
    pub(crate) fn rules(&self) -> &'a [Rule] {
        match self {
            Subject::Scenario(scenario) => scenario.rules.as_slice(),
            Subject::Engine(arrangement, _) => arrangement.rules,
        }
    }

    /// Each type.
    pub(crate) fn types(&self, alloc: Global) -> Result<Vec<TypeNo>, NoMemory> {
        let count = match self {
            Subject::Scenario(scenario) => scenario.types.as_slice().len(),
            Subject::Engine(arrangement, _) => arrangement.types as usize,
        };
        let numbers = (0..MAX_TYPES as u32).filter_map(TypeNo::new);
        numbers.take(count).collect(alloc)
    }

    /// Each resource.
    pub(crate) fn resources(&self, alloc: Global) -> Result<Vec<ResNo>, NoMemory> {
        let count = match self {
            Subject::Scenario(scenario) => scenario.resources.as_slice().len(),
            Subject::Engine(arrangement, _) => arrangement.resources as usize,
        };
        let numbers = (0..MAX_RESOURCES as u32).filter_map(ResNo::new);
        numbers.take(count).collect(alloc)
    }

    pub(crate) fn system(&self, number: u32) -> Name<'a> {
        match self {
            Subject::Scenario(scenario) => Name::Given(system_name(scenario, number)),
            Subject::Engine(_, names) => names.system(number),
        }
    }

    pub(crate) fn of_type(&self, t: TypeNo) -> Name<'a> {
        match self {
            Subject::Scenario(scenario) => Name::Given(type_name(scenario, t)),
            Subject::Engine(_, names) => names.of_type(t),
        }
    }

    pub(crate) fn resource(&self, r: ResNo) -> Name<'a> {
        match self {
            Subject::Scenario(scenario) => Name::Given(resource_name(scenario, r)),
            Subject::Engine(_, names) => names.resource(r),
        }
    }

    /// Whether a system uses the type so. Of an engine's systems only the access is known, by which
    /// a drain writes.
    pub(crate) fn uses(&self, how: Use, t: TypeNo, system: u32) -> bool {
        match self {
            Subject::Scenario(scenario) => uses(scenario, how, t, system),
            Subject::Engine(arrangement, _) => match arrangement.accesses.get(system as usize) {
                Some(access) if how == Use::Write => access.writes_type(t),
                Some(access) => access.reads_type(t),
                None => false,
            },
        }
    }
}
