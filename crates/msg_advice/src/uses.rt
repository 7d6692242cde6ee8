// Who writes messages of a type, and who is given some.
use crate::subject::Told;
use msg_reading::Scenario;
use msg_system::{Condition, Op, Probe};
use msg_world::TypeNo;

/// How a system uses a type.
#[derive(Clone, Copy, Debug, PartialEq, Eq)]
pub(crate) enum Use {
    /// It writes messages of it.
    Write,
    /// It is given messages of it, or asks about them, by an op or by a condition. A drain is given
    /// all that it drops.
    Read,
}

/// Whether an op uses the type so.
pub(crate) fn op_uses(op: &Op, how: Use, t: TypeNo) -> bool {
    match (op, how) {
        (Op::Drain(drained), _) => how == Use::Read && *drained == t,
        (_, Use::Read) => op.read_type() == Some(t),
        (_, Use::Write) => op.write_type() == Some(t),
    }
}

/// Whether the condition asks for new messages of the type.
pub(crate) fn asks_for(condition: &Condition, t: TypeNo) -> bool {
    condition.probe == Probe::OnMessage(t)
}

/// Whether a system uses the type so.
pub(crate) fn uses(scenario: &Scenario, how: Use, t: TypeNo, system: u32) -> bool {
    let Some(system) = scenario.systems.as_slice().get(system as usize) else {
        return false;
    };
    let mut ops = system.program.ops.as_slice().iter();
    let mut conditions = system.place.conditions.as_slice().iter();
    ops.any(|op| op_uses(op, how, t))
        || how == Use::Read && conditions.any(|condition| asks_for(condition, t))
}

/// The first system that writes a type and that another has to run before, which reads it: that is
/// given its messages a frame late.
pub(crate) fn late_for(told: &Told, system: u32, t: TypeNo) -> Option<u32> {
    let Told { planned, subject } = told;
    if !subject.uses(Use::Read, t, system) {
        return None;
    }
    let mut turns = planned.turns().iter().copied();
    turns.find(|writer| subject.uses(Use::Write, t, *writer) && planned.precedes(system, *writer))
}
