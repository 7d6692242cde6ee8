// What each part of a scenario is called. A number that names nothing in it has an empty name.
use msg_reading::Scenario;
use msg_world::{ResNo, TypeNo};

pub(crate) fn type_name(scenario: &Scenario, t: TypeNo) -> &str {
    match scenario.types.as_slice().get(t.number() as usize) {
        Some((name, _)) => name.as_str(),
        None => "",
    }
}

pub(crate) fn resource_name(scenario: &Scenario, r: ResNo) -> &str {
    match scenario.resources.as_slice().get(r.number() as usize) {
        Some((name, _)) => name.as_str(),
        None => "",
    }
}

pub(crate) fn system_name(scenario: &Scenario, system: u32) -> &str {
    match scenario.systems.as_slice().get(system as usize) {
        Some(system) => system.name.as_str(),
        None => "",
    }
}
