// What a job uses.
ghost use Rattle.std.specs.Prelude.{◌↔◌, IsTrue};
ghost use Rattle.msg_system.specs.Prelude.{FitsWorld, IsAccessOf, Needs, needs_of, with_conditions};

use crate::{Access, Condition};
use msg_world::Value;

/// The access of a job: the union of its system's and its conditions'.
pub fn job_access<V: Value>(system: &Access, conditions: &[Condition<V>]) -> Access
    ensures union { IsAccessOf (with_conditions (needs_of system.now) conditions.now) result }

    // So it is what the job needs, if `system` is what its system needs.
    ensures needs { (n : Needs) → IsAccessOf n system.now
        → IsAccessOf (with_conditions n conditions.now) result }
{
    let mut asked = Access::none();
    for condition in conditions {
        asked = asked.union(&condition.access());
    }
    system.union(&asked)
}

/// Whether a world of so many types and resources has all that a system of this access and its
/// conditions use.
pub fn fits_world<V: Value>(
    system: &Access,
    conditions: &[Condition<V>],
    types: u32,
    resources: u32,
) -> bool
    ensures fit { (n : Needs) → IsAccessOf n system.now
        → (IsTrue result ↔ FitsWorld types resources (with_conditions n conditions.now)) }
{
    job_access(system, conditions).fits(types, resources)
}
