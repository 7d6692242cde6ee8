// Why a value is refused, as a sentence.
use crate::explanation::list::{add_known, add_question, add_wanted, contents};
use crate::explanation::nearest::{KnownNames, nearest};
use crate::explanation::{key_at, value_at};
use msg_json::{
    CALLS_KEYS, Fault, Key, Location, Reason, SCENARIO_KEYS, SYSTEM_KEYS, is_calls_file,
};
use msg_world::NoMemory;
use serde_json::Value;
use std::alloc::Global;

/// Why a value is refused for a fault: what is wanted in place of what stands there, and the name
/// that may have been meant by it.
pub fn why(
    alloc: Global,
    fault: &Fault,
    value: &Value,
    names: &KnownNames,
) -> Result<String, NoMemory> {
    let there = value_at(value, fault.location);
    let mut text = String::new(alloc);
    add_sentence(alloc, &mut text, fault, there)?;
    let word = match fault.location.member {
        Some(number) => there.and_then(|value| key_at(value, number)),
        None => there.and_then(Value::as_str),
    };
    if let Some(word) = word {
        add_hint(alloc, &mut text, fault, word, there, names)?;
    }
    Ok(text)
}

fn add_sentence(
    alloc: Global,
    text: &mut String,
    fault: &Fault,
    there: Option<&Value>,
) -> Result<(), NoMemory> {
    let place = fault.location;
    match fault.reason {
        Reason::Missing(key) => write!(text, "this key is missing: {}", key.text()),
        Reason::List => write!(text, "wanted a list of {}", contents(place)),
        Reason::Parts => add_wanted(alloc, text, place, there),
        Reason::AtMost(most) => write!(text, "wanted at most {most} {}", contents(place)),
        Reason::Below(end) => add_below(text, end, place),
        Reason::StandsAt(n) => write!(text, "this name stands already in its list, at number {n}"),
        reason => text.push_str(plain(reason)),
    }
}

/// The sentence of a reason that is the same everywhere.
fn plain(reason: Reason) -> &'static str {
    match reason {
        Reason::Object => "wanted an object",
        Reason::UnknownKey => "no such key is known here",
        Reason::Text => "wanted a text",
        Reason::Number => "wanted a number",
        Reason::Numbers => "wanted a list of numbers",
        Reason::Truth => "wanted true or false",
        Reason::Whole => "wanted a whole number from -9223372036854775808 to 9223372036854775807",
        Reason::Natural => "wanted a whole number from 0 to 9223372036854775807",
        Reason::Join => "wanted a whole number from 1 to 10000",
        Reason::BadName => "wanted 1 to 32 characters of a to z, 0 to 9 and _, and not host",
        Reason::NoType => "no type has this name",
        Reason::NoResource => "no resource has this name",
        Reason::NoSystem => "no system has this name",
        Reason::Kind => "wanted script, relay or tally",
        Reason::NotOfKind => "a relay has one forward as its ops, and a tally one sum",
        Reason::Start => "wanted zero or current",
        Reason::Clash(_) => "the ops of this system read and write one type",
        Reason::Cycle(_) => "the rules lead round",
        _ => "",
    }
}

/// Adds the range of a number: of a cursor, the first part of a call, or else of a limit.
fn add_below(text: &mut String, end: u32, place: Location) -> Result<(), NoMemory> {
    let last = end.saturating_sub(1);
    match (place.section, place.part) {
        (Some(Key::Calls), Some(1)) if last == 0 => {
            text.push_str("no such cursor: so far there is cursor 0 alone")
        }
        (Some(Key::Calls), Some(1)) => {
            write!(text, "no such cursor: so far there are cursors 0 to {last}")
        }
        _ => write!(text, "wanted a whole number from 0 to {last}"),
    }
}

/// Adds what may have been meant by a word.
fn add_hint(
    alloc: Global,
    text: &mut String,
    fault: &Fault,
    word: &str,
    there: Option<&Value>,
    names: &KnownNames,
) -> Result<(), NoMemory> {
    let near = match fault.reason {
        Reason::NoType => return add_name(text, word, names.types.as_slice(), names),
        Reason::NoResource => return add_name(text, word, names.resources.as_slice(), names),
        Reason::NoSystem => return add_name(text, word, names.systems.as_slice(), names),
        Reason::UnknownKey => {
            let keys = keys_of(fault.location, there).iter();
            let known: Vec<&'static str> = keys.map(|key| key.text()).collect(alloc)?;
            if known.as_slice().contains(&word) {
                return text.push_str("; it is a key of another kind of file");
            }
            return add_known(text, word, &known);
        }
        Reason::Kind => nearest(word, &["script", "relay", "tally"]),
        Reason::Start => nearest(word, &["zero", "current"]),
        _ => None,
    };
    add_question(text, near)
}

/// Adds of what else a word is the name, or else the nearest of the names that were looked through.
fn add_name(
    text: &mut String,
    word: &str,
    through: &[&str],
    names: &KnownNames,
) -> Result<(), NoMemory> {
    let kinds = [
        ("type", &names.types),
        ("resource", &names.resources),
        ("system", &names.systems),
    ];
    for (kind, known) in &kinds {
        if known.contains(&word) {
            return write!(text, "; {word} is a {kind}");
        }
    }
    add_question(text, nearest(word, through))
}

/// The keys that are known where one isn't.
fn keys_of(place: Location, there: Option<&Value>) -> &'static [Key] {
    match there {
        _ if place.section.is_some() => SYSTEM_KEYS,
        Some(file) if is_calls_file(file) => CALLS_KEYS,
        _ => SCENARIO_KEYS,
    }
}
