// Whether a system's program clashes with itself.
ghost use Rattle.std.specs.Prelude.{◌≡◌, ◌≤◌, ℕ, Err, IfErr, OnOk, length};
ghost use Rattle.msg_reading.specs.Prelude.{IsLowestClashing, NoneClash, unfit};
ghost use Rattle.msg_json.specs.declared.reason.Reason.TheVariants.{Clash};

use crate::{Fault, SystemSpec};
use msg_json::fault::at_step;
use msg_json::{Key, PathStep, Reason};
use msg_world::MAX_SYSTEMS;

/// Checks that no program reads and writes one type; else `Clash` with the lowest system whose
/// program does.
pub fn check_clashes(systems: &[SystemSpec]) -> Result<(), Fault>
    requires few { length systems.now ≤ MAX_SYSTEMS }
    ensures passed { OnOk result (NoneClash systems.now) }
    ensures refused { IfErr result (λ e. (s : ℕ) × (e ≡ unfit (Clash s))
        × IsLowestClashing systems.now s) }
{
    let mut s = 0u32;
    for system in systems {
        if system.program.access().is_clash() {
            return clash_of(s);
        }
        s += 1;
    }
    Ok(())
}

/// The fault of this system's clash.
fn clash_of(s: u32) -> Result<(), Fault>
    ensures clash { result ≡ Err (unfit (Clash s)) }
{
    let clash = Err(Fault::here(Reason::Clash(s)));
    at_step(
        PathStep::Section(Key::Systems),
        at_step(PathStep::Element(s as usize), clash),
    )
}
