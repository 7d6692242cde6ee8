// The text that tells who writes and who reads each type.
use crate::edges::add_part;
use crate::subject::Told;
use crate::uses::{Use, late_for};
use msg_world::{NoMemory, Part, TypeNo};

/// The systems that write, or read, a type, with `, ` between two.
fn add_users(text: &mut String, told: &Told, how: Use, t: TypeNo) -> Result<(), NoMemory> {
    let Told { planned, subject } = told;
    let start = text.len();
    for system in planned.turns() {
        if subject.uses(how, t, *system) {
            if text.len() > start {
                text.push_str(", ")?;
            }
            write!(text, "{}", subject.system(*system))?;
            if how == Use::Read && late_for(told, *system, t).is_some() {
                text.push_str(" (a frame late)")?;
            }
        }
    }
    if text.len() == start {
        text.push_str("no system")?;
    }
    Ok(())
}

/// A line for each type.
pub(crate) fn add_types(text: &mut String, told: &Told) -> Result<(), NoMemory> {
    let types = told.subject.types(*text.allocator())?;
    for t in types.as_slice() {
        add_part(text, &told.subject, Part::OfType(*t))?;
        text.push_str(": written by ")?;
        add_users(text, told, Use::Write, *t)?;
        text.push_str("; read by ")?;
        add_users(text, told, Use::Read, *t)?;
        text.push_str("\n")?;
    }
    Ok(())
}
