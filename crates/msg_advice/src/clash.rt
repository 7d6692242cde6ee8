// Which ops of a system clash.
ghost use Rattle.std.specs.Prelude.{◌≡◌, ◌↔◌, IfSome, IsTrue, Some};
ghost use Rattle.msg_system.specs.Prelude.{type_written};
ghost use Rattle.msg_advice.specs.Unfit.{DoClash};

use crate::names::type_name;
use msg_reading::Scenario;
use msg_system::Op;
use msg_world::{NoMemory, TypeNo};

/// An op that reads a type and one that writes it, by their places in one program.
#[derive(Clone, Copy, Debug, PartialEq, Eq)]
pub struct Clash {
    pub reader: usize,
    pub writer: usize,
    pub of_type: TypeNo,
}

/// The first op that reads a type which an op of the program writes, and the first one that writes
/// it; None if there are none such.
pub fn clash_of(ops: &[Op]) -> Option<Clash>
    ensures clash { IfSome result (DoClash ops.now) }
{
    let reader = ops.iter().position(|op| reads_written(ops, op))?;
    let of_type = ops.get(reader)?.read_type()?;
    let writer = ops.iter().position(|op| is_writer(op, of_type))?;
    Some(Clash {
        reader,
        writer,
        of_type,
    })
}

/// Whether one of these ops writes the type that `op` reads.
fn reads_written(ops: &[Op], op: &Op) -> bool {
    match op.read_type() {
        Some(t) => ops.iter().any(|other| is_writer(other, t)),
        None => false,
    }
}

fn is_writer(op: &Op, t: TypeNo) -> bool
    ensures writer { IsTrue result ↔ (type_written op.now ≡ Some t) }
{
    match op.write_type() {
        Some(u) => u == t,
        None => false,
    }
}

/// Adds the line of a system's clash.
pub(crate) fn add_clash(
    text: &mut String,
    scenario: &Scenario,
    system: u32,
) -> Result<(), NoMemory> {
    let Some(system) = scenario.systems.as_slice().get(system as usize) else {
        return Ok(());
    };
    let ops = system.program.ops.as_slice();
    let Some(clash) = clash_of(ops) else {
        return Ok(());
    };
    let t = type_name(scenario, clash.of_type);
    let (reader, writer) = (clash.reader, clash.writer);
    let writes = match ops.get(writer) {
        Some(Op::Drain(_)) => "drains",
        _ => "writes",
    };
    writeln!(
        text,
        "ops[{reader}] reads {t}, and ops[{writer}] {writes} it"
    )
}
