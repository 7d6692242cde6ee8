// Whether rules go round in a circle.
ghost use Rattle.std.specs.Prelude.{◌<◌, ◌≤◌, IfNone, IfSome};
ghost use Rattle.msg_order.specs.Prelude.{IsAcyclic, IsLowestOnCycle, NameSystemsBelow, edges_of};

use crate::Rule;
use crate::paths::follow_rules;
use crate::system_set::SystemSet;
use msg_world::MAX_SYSTEMS;

/// Of so many systems the lowest one from which the rules lead back to it; None if there is no
/// such system. It takes no memory.
pub fn lowest_on_cycle(systems: usize, rules: &[Rule]) -> Option<u32>
    requires few { systems ≤ MAX_SYSTEMS }
    requires in_range { NameSystemsBelow systems rules.now }
    ensures lowest { IfSome result (IsLowestOnCycle (edges_of rules.now)) }
    ensures acyclic { IfNone result (IsAcyclic (edges_of rules.now)) }
{
    let joined = [true; MAX_SYSTEMS];
    let mut before = [SystemSet::empty(); MAX_SYSTEMS];
    follow_rules(&mut before[..systems], rules, &joined[..systems])
}
