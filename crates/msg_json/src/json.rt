// A JSON text's value, known keys and needed keys of an object, and the parts of a list.
ghost use Rattle.std.specs.Prelude.{◌≡◌, IfErr, IfOk, not, position, string_bytes};
ghost use Rattle.serde_json.specs.View.{view};
ghost use Rattle.msg_json.specs.Faults.{IsUnread};
ghost use Rattle.msg_json.specs.Json.{IsJsonOf};
ghost use Rattle.msg_json.specs.Seen.{head_seen, items_seen, text_seen, value_seen};
ghost use Rattle.msg_json.specs.Values.{at_key, headed, is_among, known_keys, list_up_to, text_of};

use crate::fault::Fault;
use crate::file_fault::FileFault;
use crate::location::{Key, Location};
use crate::reason::Reason;
use serde_json::{Category, Map, Value};
use std::alloc::Global;

/// The value that the bytes are a JSON text of; `NotJson` if there is none, and want of memory.
pub fn parse(alloc: Global, bytes: &[u8]) -> Result<Value, FileFault>
    ensures ok { IfOk result (λ value. IsJsonOf bytes.now (view value)) }
    ensures unread { IfErr result (IsUnread bytes.now) }
{
    match Value::from_slice(alloc, bytes) {
        Ok(value) => Ok(value),
        Err(error) if error.classify() == Category::Memory => {
            Err(FileFault::At(Fault::here(Reason::NoMemory)))
        }
        Err(error) => Err(FileFault::NotJson {
            line: error.line(),
            column: error.column(),
        }),
    }
}

/// Checks that a value is an object that has none but these keys.
#[tactic(auto, using(crate::proofs::WalksOverLists::list_steps))]
pub fn check_keys(value: &Value, known: &[Key]) -> Result<(), Fault>
    ensures checked { result ≡ known_keys known.now (view value.now) }
{
    let Some(members) = value.as_object() else {
        return Err(Fault::here(Reason::Object));
    };
    match first_unknown(members, known) {
        None => Ok(()),
        member => Err(Fault {
            reason: Reason::UnknownKey,
            location: Location {
                member,
                ..Location::here()
            },
        }),
    }
}

/// The number of the first key that isn't known.
fn first_unknown(members: &Map<String, Value>, known: &[Key]) -> Option<usize>
    ensures { result
        ≡ position (λ m. not (is_among known.now (string_bytes m.0))) members.now.entries }
{
    members
        .iter()
        .position(|(key, _)| !is_among(known, key.as_str()))
}

fn is_among(known: &[Key], text: &str) -> bool
    ensures { result ≡ is_among known.now text.now }
{
    known.iter().any(|key| text == key.text())
}

/// What stands at a key that has to be there.
pub fn needed(value: &Value, key: Key) -> Result<&Value, Fault>
    ensures found { value_seen result ≡ at_key key (view value.now) }
{
    value
        .get(key.text())
        .ok_or(Fault::here(Reason::Missing(key)))
}

/// The elements of a list that has at most so many.
#[tactic(auto, using(crate::proofs::WalksOverLists::list_steps))]
pub fn list(value: &Value, most: usize) -> Result<&[Value], Fault>
    ensures elements { items_seen result ≡ list_up_to most (view value.now) }
{
    let Some(items) = value.as_array() else {
        return Err(Fault::here(Reason::List));
    };
    let items = items.as_slice();
    if items.len() > most {
        return Err(Fault::here(Reason::AtMost(most)));
    }
    Ok(items)
}

/// The text that a value is.
pub fn text(value: &Value) -> Result<&str, Fault>
    ensures text { text_seen result ≡ text_of (view value.now) }
{
    value.as_str().ok_or(Fault::here(Reason::Text))
}

/// The text that a list begins with, and what follows it.
#[tactic(auto, using(crate::proofs::WalksOverLists::list_steps))]
pub fn head_and_parts(value: &Value) -> Result<(&str, &[Value]), Fault>
    ensures headed { head_seen result ≡ headed (view value.now) }
{
    if let Some(items) = value.as_array()
        && let [first, parts @ ..] = items.as_slice()
        && let Some(head) = first.as_str()
    {
        return Ok((head, parts));
    }
    Err(Fault::here(Reason::Parts))
}
