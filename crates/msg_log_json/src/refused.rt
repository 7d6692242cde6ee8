// The line of a refusal.
ghost use Rattle.std.specs.Prelude.{◌≡◌, ◌≢◌, ◌<◌, ◌++◌, OnOk};
ghost use Rattle.msg_log_json.specs.Prelude as Spec;
ghost use Rattle.msg_log_json.specs.RefusedJson.{number_step};
ghost use Rattle.msg_json.specs.Prelude.{Text};

use msg_advice::{KnownNames, why};
use msg_buffer::NoMemory;
use msg_json::numerals::add_count;
use msg_json::{Fault, Location, Refusal};
use msg_reading::Scenario;
use serde_json::Value;
use std::alloc::Global;

/// The line of a fault of a line's value: its refusal, where in the line it lies, and why. The
/// sentence has no byte that JSON writes in another way.
pub fn add_refused_line(
    text: &mut Vec<u8>,
    scenario: &Scenario,
    fault: &Fault,
    line: &Value,
) -> Result<(), NoMemory>
    ensures appends { OnOk result ((why : Text) × Spec.IsPlain why
        × (text.new.items ≡ text.old.items ++ Spec.refused_line fault.now why)) }
{
    let why = why_refused(*text.allocator(), scenario, fault, line)?;
    add_because(text, fault, why.as_str())
}

/// The same, with this sentence.
fn add_because(text: &mut Vec<u8>, fault: &Fault, why: &str) -> Result<(), NoMemory>
    ensures appends { OnOk result ((plain : Text) × Spec.IsPlain plain
        × (text.new.items ≡ text.old.items ++ Spec.refused_line fault.now plain)) }
{
    text.extend_from_slice(head_of(fault.reason.refusal()))?;
    add_place(text, fault.location)?;
    text.extend_from_slice(b"\",\"why\":\"")?;
    add_plain(text, why.as_bytes())?;
    text.extend_from_slice(b"\"}\n")
}

/// Adds a sentence, with an apostrophe for each byte that JSON writes in another way.
fn add_plain(text: &mut Vec<u8>, sentence: &[u8]) -> Result<(), NoMemory>
    ensures appends { OnOk result ((plain : Text) × Spec.IsPlain plain
        × (text.new.items ≡ text.old.items ++ plain)) }
{
    for byte in sentence {
        text.push(plain_byte(*byte))?;
    }
    Ok(())
}

/// The byte, or an apostrophe in its place.
fn plain_byte(byte: u8) -> u8
    ensures plain { (31 < result) × (result ≢ 34) × (result ≢ 92) }
{
    match byte {
        0..=31 | b'"' | b'\\' => b'\'',
        _ => byte,
    }
}

/// Why a line is refused: in it, names are those of the scenario.
fn why_refused(
    alloc: Global,
    scenario: &Scenario,
    fault: &Fault,
    line: &Value,
) -> Result<String, NoMemory> {
    let mut names = KnownNames {
        types: Vec::new(alloc),
        resources: Vec::new(alloc),
        systems: Vec::new(alloc),
    };
    for (name, _) in scenario.types.as_slice() {
        names.types.push(name.as_str())?;
    }
    for (name, _) in scenario.resources.as_slice() {
        names.resources.push(name.as_str())?;
    }
    for system in scenario.systems.as_slice() {
        names.systems.push(system.name.as_str())?;
    }
    why(alloc, fault, line, &names)
}

/// The line of a text that is no JSON, and can be read up to this column.
pub fn add_not_json_line(text: &mut Vec<u8>, column: usize) -> Result<(), NoMemory>
    ensures appends { OnOk result
        (text.new.items ≡ text.old.items ++ Spec.not_json_line column) }
{
    text.extend_from_slice(head_of(Refusal::NotJson))?;
    add_count(text, b"column ", column as u64)?;
    text.extend_from_slice(b"\",\"why\":\"")?;
    text.extend_from_slice(b"wanted JSON")?;
    text.extend_from_slice(b"\"}\n")
}

/// The line of a text of more than so many bytes.
pub fn add_too_long_line(text: &mut Vec<u8>, most: usize) -> Result<(), NoMemory>
    ensures appends { OnOk result
        (text.new.items ≡ text.old.items ++ Spec.too_long_line most) }
{
    text.extend_from_slice(head_of(Refusal::TooMany))?;
    text.extend_from_slice(b"\",\"why\":\"")?;
    add_count(text, b"at most ", most as u64)?;
    text.extend_from_slice(b" bytes")?;
    text.extend_from_slice(b"\"}\n")
}

/// How the line of a refusal begins.
#[tactic(auto, unfolding(crate::specs::RefusedJson::refused_head))]
fn head_of(refusal: Refusal) -> &'static [u8]
    ensures head { result.now ≡ Spec.refused_head refusal }
{
    match refusal {
        Refusal::NotJson => b"{\"refused\":1,\"name\":\"NotJson\",\"at\":\"",
        Refusal::Shape => b"{\"refused\":2,\"name\":\"Shape\",\"at\":\"",
        Refusal::UnknownKey => b"{\"refused\":3,\"name\":\"UnknownKey\",\"at\":\"",
        Refusal::BadName => b"{\"refused\":4,\"name\":\"BadName\",\"at\":\"",
        Refusal::TwiceNamed => b"{\"refused\":5,\"name\":\"TwiceNamed\",\"at\":\"",
        Refusal::BadNumber => b"{\"refused\":6,\"name\":\"BadNumber\",\"at\":\"",
        Refusal::TooMany => b"{\"refused\":7,\"name\":\"TooMany\",\"at\":\"",
        Refusal::UnknownName => b"{\"refused\":8,\"name\":\"UnknownName\",\"at\":\"",
        Refusal::Clash(_) => b"{\"refused\":9,\"name\":\"Clash\",\"at\":\"",
        Refusal::Cycle(_) => b"{\"refused\":10,\"name\":\"Cycle\",\"at\":\"",
        Refusal::NoMemory => b"{\"refused\":11,\"name\":\"NoMemory\",\"at\":\"",
    }
}

/// The place in a line: a post, and a part of it.
fn add_place(text: &mut Vec<u8>, location: Location) -> Result<(), NoMemory>
    ensures appends { OnOk result
        (text.new.items ≡ text.old.items ++ Spec.place_json location) }
{
    add_step(text, location.item)?;
    add_step(text, location.part)
}

fn add_step(text: &mut Vec<u8>, n: Option<usize>) -> Result<(), NoMemory>
    ensures appends { OnOk result (text.new.items ≡ text.old.items ++ number_step n) }
{
    let Some(n) = n else {
        return Ok(());
    };
    add_count(text, b"[", n as u64)?;
    text.extend_from_slice(b"]")
}
