// The text of batches, and of the longest chain through them.
use crate::put::Form;
use crate::subject::{Subject, Told};
use msg_world::NoMemory;

/// Systems, each with a space in front.
fn add_members(
    text: &mut String,
    subject: &Subject,
    form: Form,
    systems: &[u32],
) -> Result<(), NoMemory> {
    for system in systems {
        let name = subject.system(*system);
        match form {
            Form::Lines => write!(text, " {name}")?,
            Form::Dot => write!(text, " \"{name}\";")?,
        }
    }
    Ok(())
}

/// Each batch, counted from 1. For Graphviz its systems stand side by side.
pub(crate) fn add_batches(text: &mut String, told: &Told, form: Form) -> Result<(), NoMemory> {
    for (b, batch) in told.planned.batches().iter().enumerate() {
        match form {
            Form::Lines => write!(text, "batch {}:", b as u64 + 1)?,
            Form::Dot => text.push_str("  { rank=same;")?,
        }
        add_members(text, &told.subject, form, batch)?;
        text.push_str(match form {
            Form::Lines => "\n",
            Form::Dot => " }\n",
        })?;
    }
    Ok(())
}

/// The line of the longest chain, and how many systems it has.
pub(crate) fn add_chain(text: &mut String, told: &Told) -> Result<(), NoMemory> {
    let chain = told.planned.chain(*text.allocator())?;
    text.push_str("longest chain:")?;
    add_members(text, &told.subject, Form::Lines, &chain)?;
    writeln!(text, " ({})", chain.len())
}
