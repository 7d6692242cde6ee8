// Held updates that nobody signals, and signals that nothing waits for; systems that join after the
// last frame; and those that may skip a turn, and so miss messages of what they read.
use crate::names::type_name;
use crate::subject::Subject;
use crate::uses::{Use, asks_for, op_uses};
use msg_reading::{Scenario, SystemSpec};
use msg_system::{Condition, Op};
use msg_world::{NoMemory, TypeNo};

pub(super) fn add_signals(text: &mut String, scenario: &Scenario) -> Result<(), NoMemory> {
    if is_never_updated(scenario) {
        return text.push_str("remark: updates are held, and no system signals\n");
    }
    for system in scenario.systems.as_slice() {
        if signals(system) && !scenario.held {
            let name = system.name.as_str();
            writeln!(text, "remark: {name} signals, and updates aren't held")?;
        }
    }
    Ok(())
}

/// Whether no message is ever dropped, since updates are held and no system signals.
fn is_never_updated(scenario: &Scenario) -> bool {
    scenario.held && !scenario.systems.as_slice().iter().any(signals)
}

fn signals(system: &SystemSpec) -> bool {
    let mut ops = system.program.ops.as_slice().iter();
    ops.any(|op| matches!(op, Op::Signal))
}

pub(super) fn add_absent(text: &mut String, scenario: &Scenario) -> Result<(), NoMemory> {
    let frames = scenario.frames.as_slice().len() as u64;
    for system in scenario.systems.as_slice() {
        let (name, join) = (system.name.as_str(), system.place.join);
        if u64::from(join) > frames {
            write!(text, "remark: {name} joins with frame {join}")?;
            writeln!(text, ", and there are {frames} frames")?;
        }
    }
    Ok(())
}

pub(super) fn add_skipped(text: &mut String, scenario: &Scenario) -> Result<(), NoMemory> {
    if is_never_updated(scenario) {
        return Ok(());
    }
    let types = Subject::Scenario(scenario).types(*text.allocator())?;
    for system in scenario.systems.as_slice() {
        for t in types.as_slice() {
            if let Some(how) = may_miss(system, *t) {
                let (name, of_type) = (system.name.as_str(), type_name(scenario, *t));
                writeln!(text, "remark: {name} {how} of {of_type}")?;
            }
        }
    }
    Ok(())
}

/// How a system with conditions may miss messages of a type that an op of it reads, if it may. One
/// that waits for nothing but messages of the type, and takes all of them, misses none.
fn may_miss(system: &SystemSpec, t: TypeNo) -> Option<&'static str> {
    let conditions = system.place.conditions.as_slice();
    let ops = system.program.ops.as_slice();
    if conditions.is_empty() || !ops.iter().any(|op| op_uses(op, Use::Read, t)) {
        return None;
    }
    let takes_all = ops.iter().any(|op| takes_all(op, t));
    if conditions.iter().any(|condition| wakes(condition, t)) && !takes_all {
        Some("runs only if new messages came, and doesn't take all of them, so it may miss some")
    } else if !conditions.iter().all(|condition| wakes(condition, t)) {
        Some("may skip its turns, and so miss messages")
    } else {
        None
    }
}

/// Whether the condition holds exactly if new messages of the type came.
fn wakes(condition: &Condition, t: TypeNo) -> bool {
    condition.nots % 2 == 0 && asks_for(condition, t)
}

/// Whether nothing of the type is unread after the op.
fn takes_all(op: &Op, t: TypeNo) -> bool {
    let is_limited = matches!(op, Op::Read(_, Some(_)) | Op::Len(_) | Op::Missed(_));
    op_uses(op, Use::Read, t) && !is_limited
}
