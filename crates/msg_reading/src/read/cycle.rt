// Whether the rules of a file go round in a circle.
ghost use Rattle.std.specs.Prelude.{◌≡◌, ◌≤◌, ℕ, IfErr, OnOk};
ghost use Rattle.msg_order.specs.Prelude.{IsAcyclic, IsLowestOnCycle, NameSystemsBelow, edges_of};
ghost use Rattle.msg_json.specs.declared.reason.Reason.TheVariants.{Cycle};
ghost use Rattle.msg_reading.specs.Prelude.{unfit};

use crate::Fault;
use msg_json::fault::at_step;
use msg_json::{Key, PathStep, Reason};
use msg_order::{Rule, lowest_on_cycle};
use msg_world::MAX_SYSTEMS;

/// Checks that the rules of so many systems make no cycle; else `Cycle` with the lowest system on
/// one. It takes no memory.
pub fn check_cycles(systems: usize, rules: &[Rule]) -> Result<(), Fault>
    requires few { systems ≤ MAX_SYSTEMS }
    requires in_range { NameSystemsBelow systems rules.now }
    ensures acyclic { OnOk result (IsAcyclic (edges_of rules.now)) }
    ensures refused { IfErr result (λ e.
        (s : ℕ) × (e ≡ unfit (Cycle s)) × IsLowestOnCycle (edges_of rules.now) s) }
{
    match lowest_on_cycle(systems, rules) {
        None => Ok(()),
        Some(s) => at_step(
            PathStep::Section(Key::Rules),
            Err(Fault::here(Reason::Cycle(s))),
        ),
    }
}
