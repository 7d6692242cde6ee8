// The text that tells why each system is before the next: a rule says so, or one of them writes a
// part of the world that the other reads or writes.
use crate::put::Form;
use crate::subject::{Subject, Told};
use msg_names::Name;
use msg_order::Rule;
use msg_world::{Access, NoMemory, Part};
use std::alloc::Global;

/// The first rule that puts a system before another, by its place among all.
pub(crate) fn rule_between(rules: &[Rule], earlier: u32, later: u32) -> Option<usize> {
    let mut rules = rules.iter();
    rules.position(|rule| rule.earlier == earlier && rule.later == later)
}

/// Whether one access writes the part, and the other uses it.
fn collide(writing: &Access, other: &Access, part: Part) -> bool {
    match part {
        Part::OfType(t) => {
            writing.writes_type(t) && (other.reads_type(t) || other.writes_type(t))
        }
        Part::OfResource(r) => {
            writing.writes_res(r) && (other.reads_res(r) || other.writes_res(r))
        }
        Part::Registry => writing.registry && other.registry,
    }
}

/// The parts of the world.
fn parts_of(alloc: Global, subject: &Subject) -> Result<Vec<Part>, NoMemory> {
    let mut parts = Vec::new(alloc);
    for t in subject.types(alloc)?.as_slice() {
        parts.push(Part::OfType(*t))?;
    }
    for r in subject.resources(alloc)?.as_slice() {
        parts.push(Part::OfResource(*r))?;
    }
    parts.push(Part::Registry)?;
    Ok(parts)
}

/// A part, by what it is and its name.
pub(crate) fn add_part(text: &mut String, subject: &Subject, part: Part) -> Result<(), NoMemory> {
    let (kind, name) = match part {
        Part::OfType(t) => ("type ", subject.of_type(t)),
        Part::OfResource(r) => ("resource ", subject.resource(r)),
        Part::Registry => return text.push_str("registry"),
    };
    if let Name::Given(_) = name {
        text.push_str(kind)?;
    }
    write!(text, "{name}")
}

/// The causes for which system `i` is before system `j`, with `, ` between two.
fn add_causes(text: &mut String, told: &Told, i: u32, j: u32) -> Result<(), NoMemory> {
    let Told { planned, subject } = told;
    let (a, b) = (planned.access(i), planned.access(j));
    let start = text.len();
    if rule_between(subject.rules(), i, j).is_some() {
        text.push_str("rule")?;
    }
    for part in parts_of(*text.allocator(), subject)?.as_slice() {
        if collide(&a, &b, *part) || collide(&b, &a, *part) {
            if text.len() > start {
                text.push_str(", ")?;
            }
            add_part(text, subject, *part)?;
        }
    }
    Ok(())
}

/// For Graphviz an arrow, dashed if no rule is one of its causes.
fn add_edge(text: &mut String, told: &Told, form: Form, i: u32, j: u32) -> Result<(), NoMemory> {
    let subject = &told.subject;
    let (earlier, later) = (subject.system(i), subject.system(j));
    match form {
        Form::Lines => write!(text, "{earlier} before {later}: ")?,
        Form::Dot => write!(text, "  \"{earlier}\" -> \"{later}\" [label=\"")?,
    }
    add_causes(text, told, i, j)?;
    text.push_str(match form {
        Form::Lines => "\n",
        Form::Dot if rule_between(subject.rules(), i, j).is_some() => "\"];\n",
        Form::Dot => "\", style=dashed];\n",
    })
}

/// Adds each system that is before another with none between them.
pub(crate) fn add_edges(text: &mut String, told: &Told, form: Form) -> Result<(), NoMemory> {
    let planned = told.planned;
    for i in planned.turns() {
        for j in planned.turns() {
            if planned.is_next(*i, *j) {
                add_edge(text, told, form, *i, *j)?;
            }
        }
    }
    Ok(())
}
