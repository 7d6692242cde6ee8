// Scripts that may come to want of memory, and the engine of a scenario over them.
ghost use Rattle.std.specs.Prelude.{◌≡◌, ◌≤◌, IfOk, length};
ghost use Rattle.msg_system.specs.Prelude.{new_system};
ghost use Rattle.msg_exec.specs.Prelude.{EachIs, EngineStands};
ghost use Rattle.msg_scenario.specs.Prelude.{IsSystemAt};
ghost use Rattle.msg_reading.specs.Prelude.{IsRunnable, state_of};

use crate::equal::Have;
use msg_exec::{EngineOf, Workers};
use msg_part_tests::prefaced::{Before, Prefaced};
use msg_scenario::{Scenario, SystemSpec, engine_of};
use msg_system::{NoMemory, Scripted, SystemOf};
use std::alloc::Global;
use std::process::Abort;

pub fn workers(rt: &impl Abort, number: u32) -> Workers {
    Workers::new(number).have(rt)
}

/// A script that has memory for `runs` runs.
fn sparing(spec: &SystemSpec, alloc: Global, writer: u32, runs: u32) -> Result<Prefaced, NoMemory>
    requires few { length spec.now.program.ops ≤ 64 }
    ensures new { IfOk result (λ s. ⟦<Prefaced as SystemOf>⟧.meaning s
        ≡ new_system spec.now.program writer) }
{
    let script = Scripted::new(spec.program.copy(alloc)?, writer);
    let before = Before::FailAfter(runs);
    Ok(Prefaced { script, before })
}

/// The systems of the scenario; each of them has memory for `runs` runs.
fn sparing_systems(alloc: Global, scenario: &Scenario, runs: u32) -> Result<Vec<Prefaced>, NoMemory>
    requires runnable { IsRunnable scenario.now }
    ensures as_many { IfOk result (λ v. length v.items ≡ length scenario.now.systems) }
    ensures each { IfOk result (λ v.
        EachIs (IsSystemAt ⟦<Prefaced as SystemOf>⟧.meaning scenario.now.systems) v.items) }
{
    let mut systems = Vec::new(alloc);
    let specs = scenario.systems.as_slice();
    for spec in specs {
        let writer = systems.len() as u32;
        systems.push(sparing(spec, alloc, writer, runs)?)?;
    }
    Ok(systems)
}

/// An engine of the scenario; each of its systems has memory for `runs` runs.
pub fn sparing_engine(
    alloc: Global,
    scenario: &Scenario,
    runs: u32,
) -> Result<EngineOf<Prefaced>, NoMemory>
    requires runnable { IsRunnable scenario.now }
    ensures stands { IfOk result (λ e.
        EngineStands ⟦<Prefaced as SystemOf>⟧.meaning e (state_of scenario.now)) }
{
    engine_of(alloc, scenario, sparing_systems(alloc, scenario, runs)?)
}
