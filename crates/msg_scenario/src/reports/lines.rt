// What the lines of a system's turns begin with, which is the same in each frame.
ghost use Rattle.std.specs.Prelude.{◌≡◌, IfOk, map};
ghost use Rattle.msg_scenario.specs.Prelude.{op_start};
ghost use Rattle.msg_scenario.specs.inner.LineStarts.{AreLines, lines_of, texts_in};

use crate::reports::op::add_op;
use msg_buffer::NoMemory;
use msg_reading::names::add_name;
use msg_reading::{Name, Scenario, SystemSpec};
use msg_system::Op;
use std::alloc::Global;

/// What is made of a system once: the line of a turn that it skips, and how the line of each of its
/// ops begins.
#[derive(Drop)]
pub struct SystemLines {
    pub skipped: Vec<u8>,
    pub starts: Vec<Vec<u8>>,
}

/// How the line of an op begins.
fn start_of(alloc: Global, scenario: &Scenario, name: &Name, op: &Op) -> Result<Vec<u8>, NoMemory>
    ensures made { IfOk result (λ start. start.items ≡ op_start scenario.now name.now op.now) }
{
    let mut start = Vec::new(alloc);
    add_name(&mut start, name)?;
    start.extend_from_slice(b" ")?;
    add_op(&mut start, scenario, op)?;
    Ok(start)
}

/// How the line of each op begins.
fn starts_of(
    alloc: Global,
    scenario: &Scenario,
    name: &Name,
    ops: &[Op],
) -> Result<Vec<Vec<u8>>, NoMemory>
    ensures made { IfOk result (λ starts. map (λ start. start.items) starts.items
        ≡ map (op_start scenario.now name.now) ops.now) }
{
    let mut starts = Vec::with_capacity(alloc, ops.len())?;
    for op in ops {
        starts.push(start_of(alloc, scenario, name, op)?)?;
    }
    Ok(starts)
}

fn system_lines(
    alloc: Global,
    scenario: &Scenario,
    system: &SystemSpec,
) -> Result<SystemLines, NoMemory>
    ensures made { IfOk result (λ lines. texts_in lines ≡ lines_of scenario.now system.now) }
{
    let mut skipped = Vec::new(alloc);
    add_name(&mut skipped, &system.name)?;
    skipped.extend_from_slice(b" skipped\n")?;
    let starts = starts_of(alloc, scenario, &system.name, system.program.ops.as_slice())?;
    Ok(SystemLines { skipped, starts })
}

/// What is made of each system of a scenario.
pub fn make_lines(alloc: Global, scenario: &Scenario) -> Result<Vec<SystemLines>, NoMemory>
    ensures made { IfOk result (λ lines. AreLines scenario.now lines.items) }
{
    let systems = scenario.systems.as_slice();
    let mut lines = Vec::with_capacity(alloc, systems.len())?;
    for system in systems {
        lines.push(system_lines(alloc, scenario, system)?)?;
    }
    Ok(lines)
}
