// Makes the engine that a report runs.
ghost use Rattle.std.specs.Prelude.{◌≡◌, ◌≤◌, IfOk, length, map};
ghost use Rattle.msg_world.specs.Prelude.{IsWhole, PartsStand};
ghost use Rattle.msg_system.specs.Prelude.{new_system};
ghost use Rattle.msg_exec.specs.Prelude.{EachIs, EngineStands};
ghost use Rattle.msg_scenario.specs.Prelude.{IsSystemAt};
ghost use Rattle.msg_reading.specs.Prelude.{IsRunnable, first_world, places_of, state_of};

use msg_exec::{BuildRefusal, EngineOf, NoMemory, Place};
use msg_reading::{Name, Scenario, SystemSpec};
use msg_system::{MAX_OPS, Scripted, SystemOf};
use msg_world::{MAX_RESOURCES, MAX_TYPES, World};
use std::alloc::Global;

/// What stands beside each name.
fn beside_names<T: Copy>(alloc: Global, named: &[(Name, T)]) -> Result<Vec<T>, NoMemory>
    ensures beside { IfOk result (λ v. v.items ≡ map (λ pair. pair.1) named.now) }
{
    named.iter().map(|(_, value)| *value).collect(alloc)
}

/// The world before the first frame.
fn world_of(alloc: Global, scenario: &Scenario) -> Result<World, NoMemory>
    requires types { length scenario.now.types ≤ MAX_TYPES }
    requires resources { length scenario.now.resources ≤ MAX_RESOURCES }
    ensures meaning { IfOk result (λ w. PartsStand w (first_world scenario.now)) }
    ensures whole { IfOk result IsWhole }
    ensures types { IfOk result (λ w. length w.types ≡ length scenario.now.types) }
    ensures resources { IfOk result (λ w. length w.resources ≡ length scenario.now.resources) }
{
    let limits = beside_names(alloc, scenario.types.as_slice())?;
    let values = beside_names(alloc, scenario.resources.as_slice())?;
    let mut world = World::new(alloc, &limits, &values)?;
    if scenario.held {
        world.set_held();
    }
    Ok(world)
}

/// The conditions and the join frame of each system.
fn places_of(alloc: Global, scenario: &Scenario) -> Result<Vec<Place>, NoMemory>
    ensures places { IfOk result (λ v. v.items ≡ places_of scenario.now) }
{
    let mut places = Vec::new(alloc);
    for system in scenario.systems.as_slice() {
        let conditions = system.place.conditions.copy(alloc)?;
        let join = system.place.join;
        places.push(Place { conditions, join })?;
    }
    Ok(places)
}

/// The system of a spec, which writes as this number.
fn system_of(alloc: Global, spec: &SystemSpec, writer: u32) -> Result<Scripted, NoMemory>
    requires few { length spec.now.program.ops ≤ MAX_OPS }
    ensures meaning { IfOk result (λ s. ⟦<Scripted as SystemOf>⟧.meaning s
        ≡ new_system spec.now.program writer) }
{
    Ok(Scripted::new(spec.program.copy(alloc)?, writer))
}

/// The systems of a scenario, each with its number as writer. A relay and a tally are scripts of
/// one op.
pub fn systems_of(alloc: Global, scenario: &Scenario) -> Result<Vec<Scripted>, NoMemory>
    requires runnable { IsRunnable scenario.now }
    ensures as_many { IfOk result (λ v. length v.items ≡ length scenario.now.systems) }
    ensures each { IfOk result (λ v. EachIs
        (IsSystemAt ⟦<Scripted as SystemOf>⟧.meaning scenario.now.systems) v.items) }
{
    let mut systems = Vec::new(alloc);
    let specs = scenario.systems.as_slice();
    for spec in specs {
        let writer = systems.len() as u32;
        systems.push(system_of(alloc, spec, writer)?)?;
    }
    Ok(systems)
}

/// Makes the engine that `report` runs, of a scenario and of its systems. The caller chooses what
/// the systems are: system i means the program of the scenario's system i, and writes as number i.
/// A scenario that can be run has no clash and no cycle, so the only error is `NoMemory`.
pub fn engine_of<S: SystemOf<Value = i64>>(
    alloc: Global,
    scenario: &Scenario,
    systems: Vec<S>,
) -> Result<EngineOf<S>, NoMemory>
    requires runnable { IsRunnable scenario.now }
    requires as_many { length systems.items ≡ length scenario.now.systems }
    requires each { EachIs (IsSystemAt S.meaning scenario.now.systems) systems.items }
    ensures meaning { IfOk result (λ e. EngineStands S.meaning e (state_of scenario.now)) }
{
    let places = places_of(alloc, scenario)?;
    let rules = scenario.rules.copy(alloc)?.into_vec();
    let world = world_of(alloc, scenario)?;
    match EngineOf::new(alloc, world, systems, places, rules) {
        Ok(engine) => Ok(engine),
        Err(BuildRefusal::NoMemory) => Err(NoMemory),
        Err(BuildRefusal::Clash(_)) => unreachable!(),
        Err(BuildRefusal::Cycle(_)) => unreachable!(),
    }
}
