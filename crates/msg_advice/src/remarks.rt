// What is remarked of a scenario that can be run.
ghost use Rattle.msg_reading.specs.Prelude.{IsRunnable};

mod late;
mod parts;
mod systems;

use crate::planned::plan_frame;
use late::add_late;
use msg_frames::LAST_JOIN;
use msg_reading::Scenario;
use msg_world::NoMemory;
use parts::add_parts;
use std::alloc::Global;
use systems::{add_absent, add_signals, add_skipped};

/// What is remarked of a scenario, a line each: what it may have that its author didn't mean. These
/// are types that are read and never written, or written and never read, or that the file's posts
/// fill past their limit; resources that nothing uses; held updates that no system signals, and
/// signals where none are held; systems that join after the last frame; systems that read a type a
/// frame late; and those that may skip a turn, and so miss messages.
pub fn remarks_of(alloc: Global, scenario: &Scenario) -> Result<Vec<u8>, NoMemory>
    requires runnable { IsRunnable scenario.now }
{
    let mut text = String::new(alloc);
    add_by_plan(&mut text, scenario)?;
    add_signals(&mut text, scenario)?;
    add_absent(&mut text, scenario)?;
    add_late(&mut text, scenario)?;
    add_skipped(&mut text, scenario)?;
    Ok(text.into_bytes())
}

/// Remarks on what all systems use, in a frame that each has joined by.
fn add_by_plan(text: &mut String, scenario: &Scenario) -> Result<(), NoMemory>
    requires runnable { IsRunnable scenario.now }
{
    let planned = plan_frame(*text.allocator(), scenario, LAST_JOIN)?;
    let added = add_parts(text, &planned, scenario);
    drop(planned);
    added
}
