// Systems that read a type a frame late.
ghost use Rattle.std.specs.Prelude.{◌<◌};
ghost use Rattle.msg_reading.specs.Prelude.{IsRunnable};

use crate::edges::rule_between;
use crate::names::{system_name, type_name};
use crate::planned::{Planned, plan_frame};
use crate::subject::{Subject, Told};
use crate::uses::late_for;
use msg_frames::LAST_JOIN;
use msg_reading::Scenario;
use msg_world::{NoMemory, TypeNo};

/// Remarks in the order of the first frame that each holds in. Between two frames that systems join
/// with nothing changes.
pub(super) fn add_late(text: &mut String, scenario: &Scenario) -> Result<(), NoMemory>
    requires runnable { IsRunnable scenario.now }
{
    let types = Subject::Scenario(scenario).types(*text.allocator())?;
    let mut told = Vec::new(*text.allocator());
    for frame in 0..LAST_JOIN {
        if is_new_order(scenario, frame + 1) {
            add_late_in(text, scenario, frame + 1, &types, &mut told)?;
        }
    }
    Ok(())
}

/// Whether the file has this frame, and it is the first or a system joins with it.
fn is_new_order(scenario: &Scenario, frame: u32) -> bool {
    let mut systems = scenario.systems.as_slice().iter();
    frame as usize <= scenario.frames.as_slice().len()
        && (frame == 1 || systems.any(|system| system.place.join == frame))
}

/// Remarks on the systems in one frame that weren't told yet.
fn add_late_in(
    text: &mut String,
    scenario: &Scenario,
    frame: u32,
    types: &[TypeNo],
    told: &mut Vec<(u32, TypeNo)>,
) -> Result<(), NoMemory>
    requires runnable { IsRunnable scenario.now }
    requires some { 0 < frame }
{
    let planned = plan_frame(*text.allocator(), scenario, frame)?;
    let added = add_late_by(text, &planned, scenario, types, told);
    drop(planned);
    added
}

fn add_late_by(
    text: &mut String,
    planned: &Planned,
    scenario: &Scenario,
    types: &[TypeNo],
    told: &mut Vec<(u32, TypeNo)>,
) -> Result<(), NoMemory> {
    let subject = Subject::Scenario(scenario);
    let plan = Told { planned, subject };
    for system in planned.turns() {
        for t in types {
            let is_told = told.contains(&(*system, *t));
            if let Some(writer) = late_for(&plan, *system, *t)
                && !is_told
            {
                add_line(text, scenario, *system, *t, writer)?;
                told.push((*system, *t))?;
            }
        }
    }
    Ok(())
}

fn add_line(
    text: &mut String,
    scenario: &Scenario,
    system: u32,
    t: TypeNo,
    writer: u32,
) -> Result<(), NoMemory> {
    let (name, of_type) = (system_name(scenario, system), type_name(scenario, t));
    let after = system_name(scenario, writer);
    write!(text, "remark: {name} reads {of_type} a frame late")?;
    write!(text, ", since it runs before {after}")?;
    if let Some(place) = rule_between(scenario.rules.as_slice(), system, writer) {
        write!(text, " (rules[{place}])")?;
    }
    text.push_str("\n")
}
