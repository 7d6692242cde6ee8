// A scenario from the bytes of a JSON text.
ghost use Rattle.std.specs.Prelude.{◌≡◌, ◌≢◌, ◌⊎◌, Err, IfOk, IfErr};
ghost use Rattle.serde_json.specs.{Data.Data, View.view};
ghost use Rattle.msg_json.specs.Prelude.{IsFaultOf, IsJsonOf, IsNotJson, IsRefusedFor};
ghost use Rattle.msg_json.specs.declared.reason.Reason.TheVariants.{NoMemory as NoRoom};
ghost use Rattle.msg_reading.specs.Prelude.{HasFault, IsReadAs, IsRunnable};

use crate::{Fault, FileFault, Refusal, Scenario};
use msg_json::json::parse;
use serde_json::Value;
use std::alloc::Global;

mod clash;
mod condition;
mod cycle;
mod declared;
mod file;
mod frame;
mod list;
mod names;
mod op;
mod part;
mod place;
mod rule;
mod system;

pub use file::read_sections;
pub use part::pair;

/// The scenario that the bytes are a JSON text of.
///
/// # Errors
///
/// `NotJson`; else the refusal for the first fault in reading order; else `Clash` with the lowest
/// system whose program clashes; else `Cycle`. `NoMemory` may come at any point.
pub fn read_scenario(alloc: Global, bytes: &[u8]) -> Result<Scenario, Refusal>
    ensures ok { IfOk result (λ scenario.
        (d : Data) × IsJsonOf bytes.now d × IsReadAs d scenario) }
    ensures runnable { IfOk result IsRunnable }
    ensures not_json { result ≡ Err Refusal.NotJson → IsNotJson bytes.now }
    ensures refused { IfErr result (λ refusal.
        refusal ≢ Refusal.NotJson → refusal ≢ Refusal.NoMemory
        → (d : Data) × IsJsonOf bytes.now d × IsRefusedFor (HasFault d) refusal) }
{
    match check_scenario(alloc, bytes) {
        Ok(scenario) => Ok(scenario),
        Err(fault) => Err(fault.refusal()),
    }
}

/// The scenario that the bytes are a JSON text of, or their fault with its place.
///
/// # Errors
///
/// As `read_scenario` refuses it, with the reason, and where in the file it lies.
pub fn check_scenario(alloc: Global, bytes: &[u8]) -> Result<Scenario, FileFault>
    ensures ok { IfOk result (λ scenario.
        (d : Data) × IsJsonOf bytes.now d × IsReadAs d scenario) }
    ensures runnable { IfOk result IsRunnable }
    ensures fault { IfErr result (IsFaultOf HasFault bytes.now) }
{
    let value = parse(alloc, bytes)?;
    Ok(read_value(alloc, &value)?)
}

/// The scenario that a JSON value is, or the fault that it is refused for.
pub fn read_value(alloc: Global, value: &Value) -> Result<Scenario, Fault>
    ensures ok { IfOk result (IsReadAs (view value.now)) }
    ensures runnable { IfOk result IsRunnable }
    ensures refused { IfErr result (λ e. (e.reason ≡ NoRoom) ⊎ HasFault (view value.now) e) }
{
    let scenario = read_sections(alloc, value)?;
    clash::check_clashes(scenario.systems.as_slice())?;
    let systems = scenario.systems.as_slice().len();
    cycle::check_cycles(systems, scenario.rules.as_slice())?;
    Ok(scenario)
}
