// A reply as the last members of an object.
ghost use Rattle.std.specs.Prelude.{◌≡◌, ◌+◌, ◌++◌, [], IsOk, OnOk, codes, decimal};
ghost use Rattle.std.specs.Fmt.{signed_decimal};
ghost use Rattle.msg_log_json.specs.Prelude as Spec;

use crate::list::add_comma;
use msg_buffer::{NoMemory, Written};
use msg_json::numerals::{add_count, add_value};
use msg_reading::Scenario;
use msg_reading::names::add_writer;
use msg_system::{Reply, Took};
use msg_world::Record;

/// What an op was answered, each member with a comma in front.
pub fn add_reply(text: &mut Vec<u8>, scenario: &Scenario, reply: &Reply) -> Result<(), NoMemory>
    ensures appends { OnOk result
        (text.new.items ≡ text.old.items ++ Spec.reply_json scenario.now reply.now) }
{
    match reply {
        Reply::Wrote(numbers) => add_numbers(text, *numbers),
        Reply::Spent => add_spent(text),
        Reply::Read(took) => add_took(text, scenario, took),
        Reply::Len(n) => add_count(text, b",\"n\":", *n),
        Reply::Missed(n) => add_count(text, b",\"n\":", *n),
        Reply::Cleared { missed, first, n } => add_cleared(text, *missed, *first, *n),
        Reply::Forwarded { took, wrote } => add_forwarded(text, scenario, took, *wrote),
        Reply::Summed { took, value } => add_summed(text, scenario, took, *value),
        Reply::Value(value) => add_after(text, *value),
        Reply::Drained { first, items } => add_items(text, scenario, *first, items.as_slice()),
        Reply::Signalled => Ok(()),
        Reply::Outside(_) => text.extend_from_slice(b",\"cut\":\"outside\""),
        Reply::Full(_) => text.extend_from_slice(b",\"cut\":\"full\""),
    }
}

fn add_spent(text: &mut Vec<u8>) -> Result<(), NoMemory>
    ensures { OnOk result (text.new.items ≡ text.old.items ++ Spec.spent_json) }
{
    text.extend_from_slice(b",\"spent\":true")
}

fn add_cleared(text: &mut Vec<u8>, missed: u64, first: u64, n: u64) -> Result<(), NoMemory>
    ensures { OnOk result (text.new.items ≡ text.old.items
        ++ (codes ",\"missed\":" ++ decimal missed ++ codes ",\"first\":" ++ decimal first
        ++ codes ",\"n\":" ++ decimal n)) }
{
    add_count(text, b",\"missed\":", missed)?;
    add_count(text, b",\"first\":", first)?;
    add_count(text, b",\"n\":", n)
}

fn add_forwarded(
    text: &mut Vec<u8>,
    scenario: &Scenario,
    took: &Took,
    wrote: Option<Written>,
) -> Result<(), NoMemory>
    ensures { OnOk result (text.new.items ≡ text.old.items
        ++ (Spec.took_json scenario.now took.now ++ Spec.wrote_json wrote)) }
{
    add_took(text, scenario, took)?;
    let Some(numbers) = wrote else {
        return add_spent(text);
    };
    text.extend_from_slice(b",\"wrote\":{")?;
    add_count(text, b"\"first\":", numbers.first)?;
    add_count(text, b",\"n\":", numbers.n)?;
    text.extend_from_slice(b"}")
}

fn add_summed(
    text: &mut Vec<u8>,
    scenario: &Scenario,
    took: &Took,
    value: i64,
) -> Result<(), NoMemory>
    ensures { OnOk result (text.new.items ≡ text.old.items
        ++ (Spec.took_json scenario.now took.now ++ Spec.value_json value)) }
{
    add_took(text, scenario, took)?;
    add_after(text, value)
}

fn add_after(text: &mut Vec<u8>, value: i64) -> Result<(), NoMemory>
    ensures { OnOk result (text.new.items ≡ text.old.items ++ Spec.value_json value) }
{
    text.extend_from_slice(b",\"value\":")?;
    add_value(text, value)
}

/// The numbers that were written.
fn add_numbers(text: &mut Vec<u8>, numbers: Written) -> Result<(), NoMemory>
    ensures { OnOk result (text.new.items ≡ text.old.items ++ Spec.numbers_json numbers) }
{
    add_count(text, b",\"first\":", numbers.first)?;
    add_count(text, b",\"n\":", numbers.n)
}

/// What a read took.
fn add_took(text: &mut Vec<u8>, scenario: &Scenario, took: &Took) -> Result<(), NoMemory>
    ensures appends { OnOk result
        (text.new.items ≡ text.old.items ++ Spec.took_json scenario.now took.now) }
{
    add_count(text, b",\"missed\":", took.missed)?;
    add_items(text, scenario, took.first, took.items.as_slice())
}

/// Messages, and the number of the first.
fn add_items(
    text: &mut Vec<u8>,
    scenario: &Scenario,
    first: u64,
    items: &[Record],
) -> Result<(), NoMemory>
    ensures { OnOk result
        (text.new.items ≡ text.old.items ++ Spec.items_json scenario.now first items.now) }
{
    add_count(text, b",\"first\":", first)?;
    text.extend_from_slice(b",\"items\":[")?;
    add_messages(text, scenario, items)?;
    text.extend_from_slice(b"]")
}

fn add_messages(text: &mut Vec<u8>, scenario: &Scenario, items: &[Record]) -> Result<(), NoMemory>
    ensures appends { OnOk result (text.new.items
        ≡ text.old.items ++ Spec.listed (Spec.message_json scenario.now) items.now) }
{
    for (k, item) in items.iter().enumerate() {
        add_comma(text, k)?;
        add_message(text, scenario, item)?;
    }
    Ok(())
}

/// A message: its value and its writer.
fn add_message(text: &mut Vec<u8>, scenario: &Scenario, item: &Record) -> Result<(), NoMemory>
    ensures { OnOk result
        (text.new.items ≡ text.old.items ++ Spec.message_json scenario.now item.now) }
{
    text.extend_from_slice(b"[")?;
    add_value(text, item.value)?;
    text.extend_from_slice(b",\"")?;
    add_writer(text, scenario, item.writer)?;
    text.extend_from_slice(b"\"]")
}
