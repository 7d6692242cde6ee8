// What is told of a scenario that can't be run.
use crate::clash::add_clash;
use crate::cycle::add_cycle;
use msg_json::Reason;
use msg_reading::Scenario;
use msg_world::NoMemory;
use std::alloc::Global;

/// What there is to tell of a scenario that is refused as a whole: of a clash the ops and the type,
/// of a cycle the rules round it, a line each.
pub fn unfit_lines(alloc: Global, scenario: &Scenario, why: Reason) -> Result<Vec<u8>, NoMemory> {
    let mut text = String::new(alloc);
    match why {
        Reason::Clash(system) => add_clash(&mut text, scenario, system)?,
        Reason::Cycle(system) => add_cycle(&mut text, scenario, system)?,
        _ => (),
    }
    Ok(text.into_bytes())
}
