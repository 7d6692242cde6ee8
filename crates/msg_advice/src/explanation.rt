// What people are told of the fault of a file. No clause says anything of these texts.
use msg_json::{Fault, Key, Location};
use msg_world::NoMemory;
use serde_json::{Map, Value};
use std::alloc::Global;

mod list;
mod nearest;
mod sentence;

pub use nearest::KnownNames;
pub use sentence::why;

/// How many bytes of a text are shown at most.
const LONGEST: usize = 60;

/// Two lines on a fault of the JSON value that a file is: where it lies and what stands there, as
/// `at systems[7].ops[1][1]: "arive2" (system "tower2")`, and why that is refused.
pub fn fault_lines(alloc: Global, fault: &Fault, file: &Value) -> Result<String, NoMemory> {
    let place = fault.location;
    let there = value_at(file, place);
    let names = KnownNames::of_file(alloc, file)?;
    let why = why(alloc, fault, file, &names)?;
    let mut text = String::new(alloc);
    add_path(&mut text, place)?;
    add_there(alloc, &mut text, place, there)?;
    if let Some(name) = system_name(file, place) {
        text.push_str(" (system ")?;
        add_shown(alloc, &mut text, name)?;
        text.push_str(")")?;
    }
    write!(text, "\n{}\n", why.as_str())?;
    Ok(text)
}

/// Adds the path of a place.
fn add_path(text: &mut String, place: Location) -> Result<(), NoMemory> {
    let root = match place.section {
        None => "the root",
        Some(key) => key.text(),
    };
    write!(text, "at {root}")?;
    add_number(text, place.element)?;
    if let Some(key) = place.key {
        write!(text, ".{}", key.text())?;
    }
    add_number(text, place.item)?;
    for _ in 0..place.nots {
        text.push_str("[1]")?;
    }
    add_number(text, place.part)?;
    add_number(text, place.value)
}

fn add_number(text: &mut String, number: Option<usize>) -> Result<(), NoMemory> {
    match number {
        Some(number) => write!(text, "[{number}]"),
        None => Ok(()),
    }
}

/// Adds what stands at a place: a value, or a key of it.
fn add_there(
    alloc: Global,
    text: &mut String,
    place: Location,
    there: Option<&Value>,
) -> Result<(), NoMemory> {
    text.push_str(": ")?;
    let Some(value) = there else {
        return Ok(());
    };
    match place.member {
        None => add_shown(alloc, text, value),
        Some(number) => {
            text.push_str("the key ")?;
            let key = Value::try_from_str(alloc, key_at(value, number).unwrap_or(""))?;
            add_shown(alloc, text, &key)
        }
    }
}

/// Adds a value in short: as JSON, if that is short.
fn add_shown(alloc: Global, text: &mut String, value: &Value) -> Result<(), NoMemory> {
    if let Some(items) = value.as_array() {
        return write!(text, "a list of {}", items.len());
    }
    if value.is_object() {
        return text.push_str("an object");
    }
    if value.is_f64() {
        return text.push_str("a number that is no whole number of 64 bits");
    }
    match value.as_str() {
        Some(shown) if shown.len() > LONGEST => write!(text, "a text of {} bytes", shown.len()),
        _ => text.push_str(value.to_string(alloc)?.as_str()),
    }
}

/// What stands at a place in a file.
fn value_at(file: &Value, place: Location) -> Option<&Value> {
    let section = keyed(file, place.section)?;
    let element = numbered(section, place.element)?;
    let at_key = keyed(element, place.key)?;
    let mut inside = numbered(at_key, place.item)?;
    for _ in 0..place.nots {
        inside = inside.get(1usize)?;
    }
    numbered(numbered(inside, place.part)?, place.value)
}

fn keyed(value: &Value, key: Option<Key>) -> Option<&Value> {
    match key {
        None => Some(value),
        Some(key) => value.get(key.text()),
    }
}

fn numbered(value: &Value, number: Option<usize>) -> Option<&Value> {
    match number {
        None => Some(value),
        Some(number) => value.get(number),
    }
}

/// The name of the system in which a place lies.
fn system_name(file: &Value, place: Location) -> Option<&Value> {
    match place.section {
        Some(Key::Systems) => {
            let system = file.get(Key::Systems.text())?.get(place.element?)?;
            system.get(Key::Name.text())
        }
        _ => None,
    }
}

/// The key of this number, in the order of the keys' bytes.
fn key_at(value: &Value, number: usize) -> Option<&str> {
    let members: &Map<String, Value> = value.as_object()?;
    let (key, _) = members.iter().nth(number)?;
    Some(key.as_str())
}
