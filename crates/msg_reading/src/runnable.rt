// Whether a scenario can be run.
ghost use Rattle.std.specs.Prelude.{◌≤◌, ◌↔◌, All, IsTrue, length};
ghost use Rattle.msg_order.specs.Prelude.{IsAcyclic, NameSystemsBelow, edges_of};
ghost use Rattle.msg_reading.specs.Prelude.{IsRunnable, IsRunnableSystem, PostsAreToTypes};

use crate::{Scenario, SystemSpec};
use msg_frames::{Frame, LAST_JOIN};
use msg_order::{Rule, first_unknown, lowest_on_cycle};
use msg_system::{MAX_OPS, fits_world};
use msg_world::{MAX_RESOURCES, MAX_SYSTEMS, MAX_TYPES};

/// Whether the system can be made, and added to an engine over the scenario's world.
fn is_runnable_system(scenario: &Scenario, system: &SystemSpec) -> bool
    requires types { length scenario.now.types ≤ MAX_TYPES }
    requires resources { length scenario.now.resources ≤ MAX_RESOURCES }
    ensures runnable { IsTrue result ↔ IsRunnableSystem scenario.now system.now }
{
    let types = scenario.types.as_slice().len() as u32;
    let resources = scenario.resources.as_slice().len() as u32;
    let access = system.program.access();
    let conditions = system.place.conditions.as_slice();
    let ops = system.program.ops.as_slice();
    let join = system.place.join;
    ops.len() <= MAX_OPS
        && system.kind.allows(ops)
        && fits_world(&access, conditions, types, resources)
        && !access.is_clash()
        && 1 <= join
        && join <= LAST_JOIN
}

fn are_runnable_systems(scenario: &Scenario) -> bool
    requires types { length scenario.now.types ≤ MAX_TYPES }
    requires resources { length scenario.now.resources ≤ MAX_RESOURCES }
    ensures runnable { IsTrue result ↔ All (IsRunnableSystem scenario.now) scenario.now.systems }
{
    for system in scenario.systems.as_slice() {
        if !is_runnable_system(scenario, system) {
            return false;
        }
    }
    true
}

/// Whether the rules name only systems that are among so many.
fn name_systems_below(systems: usize, rules: &[Rule]) -> bool
    ensures named { IsTrue result ↔ NameSystemsBelow systems rules.now }
{
    first_unknown(systems, rules).is_none()
}

fn posts_are_to_types(scenario: &Scenario, frame: &Frame) -> bool
    ensures posts { IsTrue result ↔ PostsAreToTypes scenario.now frame.now }
{
    for post in frame.posts.as_slice() {
        if post.0.number() as usize >= scenario.types.as_slice().len() {
            return false;
        }
    }
    true
}

fn all_posts_are_to_types(scenario: &Scenario) -> bool
    ensures posts { IsTrue result ↔ All (PostsAreToTypes scenario.now) scenario.now.frames }
{
    for frame in scenario.frames.as_slice() {
        if !posts_are_to_types(scenario, frame) {
            return false;
        }
    }
    true
}

/// Whether it has no more types, resources and systems than an engine may have.
fn is_small(scenario: &Scenario) -> bool
    ensures small { IsTrue result ↔ ((length scenario.now.types ≤ MAX_TYPES)
        × (length scenario.now.resources ≤ MAX_RESOURCES)
        × (length scenario.now.systems ≤ MAX_SYSTEMS)) }
{
    scenario.types.as_slice().len() <= MAX_TYPES
        && scenario.resources.as_slice().len() <= MAX_RESOURCES
        && scenario.systems.as_slice().len() <= MAX_SYSTEMS
}

/// Whether the rules of so many systems make no cycle.
fn are_acyclic(systems: usize, rules: &[Rule]) -> bool
    requires few { systems ≤ MAX_SYSTEMS }
    requires in_range { NameSystemsBelow systems rules.now }
    ensures acyclic { IsTrue result ↔ IsAcyclic (edges_of rules.now) }
{
    lowest_on_cycle(systems, rules).is_none()
}

impl Scenario {
    /// Whether an engine can be made of it and all its frames can be run, as a report asks. One
    /// that was read can. It takes no memory.
    pub fn is_runnable(&self) -> bool
        ensures runnable { IsTrue result ↔ IsRunnable self.now }
    {
        if !is_small(self) {
            return false;
        }
        if !are_runnable_systems(self) {
            return false;
        }
        let systems = self.systems.as_slice().len();
        let rules = self.rules.as_slice();
        if !name_systems_below(systems, rules) {
            return false;
        }
        if !all_posts_are_to_types(self) {
            return false;
        }
        are_acyclic(systems, rules)
    }
}
