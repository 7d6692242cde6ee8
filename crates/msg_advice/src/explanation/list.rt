// The lists of files: what they have in them, and the forms of those that have a fixed number of
// parts.
use crate::explanation::nearest::nearest;
use msg_json::{Key, Location};
use msg_world::NoMemory;
use serde_json::Value;
use std::alloc::Global;

/// A kind of list with a fixed number of parts.
#[derive(Clone, Copy)]
struct Kind {
    one: &'static str,
    many: &'static str,
    /// The form of one, as an example.
    form: &'static str,
    heads: Heads,
}

/// The heads that a list may have, if it has one, each with its forms.
type Heads = &'static [(&'static str, &'static str)];

const NONE: Heads = &[];

const IFS: Heads = &[
    ("on_message", r#"["on_message", type]"#),
    ("resource_equals", r#"["resource_equals", resource, value]"#),
    ("not", r#"["not", condition]"#),
];

const OPS: Heads = &[
    ("write", r#"["write", type, value]"#),
    ("batch", r#"["batch", type, [value, ..]]"#),
    ("read", r#"["read", type] or ["read", type, count]"#),
    ("len", r#"["len", type]"#),
    ("missed", r#"["missed", type]"#),
    ("clear", r#"["clear", type]"#),
    ("forward", r#"["forward", type, type]"#),
    ("sum", r#"["sum", type, resource]"#),
    ("get", r#"["get", resource]"#),
    ("set", r#"["set", resource, value]"#),
    ("add", r#"["add", resource, value]"#),
    ("drain", r#"["drain", type]"#),
    ("signal", r#"["signal"]"#),
];

const CALLS: Heads = &[
    ("write", r#"["write", value]"#),
    ("batch", r#"["batch", [value, ..]]"#),
    ("update", r#"["update"]"#),
    ("read", r#"["read", cursor] or ["read", cursor, count]"#),
    ("len", r#"["len", cursor]"#),
    ("missed", r#"["missed", cursor]"#),
    ("clear", r#"["clear", cursor]"#),
    ("cursor", r#"["cursor"]"#),
    ("cursor_current", r#"["cursor_current"]"#),
    ("get", r#"["get", number]"#),
    ("current", r#"["current"]"#),
    ("oldest", r#"["oldest"]"#),
    ("count", r#"["count"]"#),
    ("total", r#"["total"]"#),
    ("drain", r#"["drain"]"#),
    ("clear_all", r#"["clear_all"]"#),
];

/// The kind of list that is wanted at a place.
fn kind_at(place: Location) -> Kind {
    let (one, many, form, heads) = match (place.section, place.key) {
        (Some(Key::Types), _) => ("a type", "types", "[name, limit]", NONE),
        (Some(Key::Resources), _) => ("a resource", "resources", "[name, value]", NONE),
        (Some(Key::Rules), _) => ("a rule", "rules", "[before, after]", NONE),
        (Some(Key::Calls), _) => ("a call", "calls", r#"["read", cursor]"#, CALLS),
        (_, Some(Key::Ops)) => ("an op", "ops", r#"["read", type]"#, OPS),
        (_, Some(Key::If)) => ("a condition", "conditions", r#"["on_message", type]"#, IFS),
        _ => ("a post", "posts", "[type, value]", NONE),
    };
    Kind {
        one,
        many,
        form,
        heads,
    }
}

/// What the list at a place has in it, or, if none may stand there, of what there are too many.
pub fn contents(place: Location) -> &'static str {
    let is_within = place.item.is_some() || place.element.is_some() && place.key.is_none();
    match (place.section, place.key) {
        _ if place.part.is_some() => "values",
        (Some(Key::Calls), _) if is_within => "cursors",
        (_, Some(Key::If)) if is_within => "nots, one in another",
        (Some(Key::Frames), _) if is_within => "posts",
        (_, Some(Key::If)) => "conditions",
        (_, Some(key)) | (Some(key), None) => key.text(),
        (None, None) => "posts",
    }
}

/// Adds what a list at a place should be: what stands there is none of the kind.
pub fn add_wanted(
    alloc: Global,
    text: &mut String,
    place: Location,
    there: Option<&Value>,
) -> Result<(), NoMemory> {
    let kind = kind_at(place);
    let Some(items) = there.and_then(Value::as_array) else {
        let Kind {
            one,
            many,
            form,
            ..
        } = kind;
        if place.nots > 0 {
            return write!(text, "{one} is a list {form}");
        }
        return write!(text, "{one} is a list, in a list of {many}: [{form}]");
    };
    if kind.heads.is_empty() {
        return write!(text, "{} is a list {}", kind.one, kind.form);
    }
    match items.as_slice().first() {
        Some(head) if head.is_string() => add_head(alloc, text, kind, head),
        _ => write!(text, "{} begins with its head, as {}", kind.one, kind.form),
    }
}

/// Adds the forms of a list with this head; or what else begins so, or which heads are known.
fn add_head(alloc: Global, text: &mut String, kind: Kind, head: &Value) -> Result<(), NoMemory> {
    let word = head.as_str().unwrap_or("");
    if let Some((_, forms)) = kind.heads.iter().find(|(known, _)| *known == word) {
        return write!(text, "{word} has the parts {forms}");
    }
    write!(text, "{} can't begin with ", kind.one)?;
    super::add_shown(alloc, text, head)?;
    for (one, others) in &[("an op", OPS), ("a condition", IFS), ("a call", CALLS)] {
        if others.iter().any(|(known, _)| *known == word) {
            return write!(text, "; {one} does");
        }
    }
    let heads: Vec<&str> = kind.heads.iter().map(|(known, _)| *known).collect(alloc)?;
    add_known(text, word, &heads)
}

/// Adds the nearest of the known words as a question, or if none is near all of them.
pub fn add_known(text: &mut String, word: &str, known: &[&str]) -> Result<(), NoMemory> {
    let near = nearest(word, known);
    if near.is_some() {
        return add_question(text, near);
    }
    let mut before = "; known are ";
    for name in known {
        write!(text, "{before}{name}")?;
        before = ", ";
    }
    Ok(())
}

/// Adds a name as a question.
pub fn add_question(text: &mut String, name: Option<&str>) -> Result<(), NoMemory> {
    match name {
        Some(name) => write!(text, "; did you mean {name}?"),
        None => Ok(()),
    }
}
