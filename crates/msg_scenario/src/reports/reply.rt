// A reply at the end of a text.
ghost use Rattle.std.specs.Prelude.{◌≡◌, ◌+◌, ◌++◌, [], IsOk, OnOk, codes, decimal};
ghost use Rattle.std.specs.Fmt.{signed_decimal};
ghost use Rattle.msg_scenario.specs.Prelude as Spec;

use msg_buffer::{NoMemory, Written};
use msg_json::numerals::{add_count, add_pair, add_value};
use msg_reading::Scenario;
use msg_reading::names::add_writer;
use msg_system::{Reply, Took};
use msg_world::Record;

/// What an op was answered, as that follows the op on its line.
pub fn add_reply(text: &mut Vec<u8>, scenario: &Scenario, reply: &Reply) -> Result<(), NoMemory>
    ensures appends { OnOk result
        (text.new.items ≡ text.old.items ++ Spec.reply_text scenario.now reply.now) }
{
    match reply {
        Reply::Wrote(numbers) => add_numbers(text, b" ", *numbers),
        Reply::Spent => text.extend_from_slice(b" spent"),
        Reply::Read(took) => add_took(text, scenario, took),
        Reply::Len(n) => add_count(text, b" ", *n),
        Reply::Missed(n) => add_count(text, b" ", *n),
        Reply::Cleared { missed, n, .. } => {
            add_count(text, b" missed ", *missed)?;
            add_count(text, b" cleared ", *n)
        }
        Reply::Forwarded { took, wrote } => {
            add_took(text, scenario, took)?;
            match wrote {
                Some(numbers) => add_numbers(text, b"; ", *numbers),
                None => text.extend_from_slice(b"; spent"),
            }
        }
        Reply::Summed { took, value } => {
            add_took(text, scenario, took)?;
            add_after(text, b"; ", *value)
        }
        Reply::Value(value) => add_after(text, b" ", *value),
        Reply::Drained { first, items } => {
            text.extend_from_slice(b":")?;
            add_items(text, scenario, *first, items.as_slice())
        }
        Reply::Signalled => Ok(()),
        Reply::Outside(_) => text.extend_from_slice(b" outside"),
        Reply::Full(_) => text.extend_from_slice(b" full"),
    }
}

/// A value after a head.
#[inline(always)]
fn add_after(text: &mut Vec<u8>, head: &[u8], value: i64) -> Result<(), NoMemory>
    ensures { OnOk result (text.new.items ≡ text.old.items ++ (head.now ++ signed_decimal value)) }
{
    text.extend_from_slice(head)?;
    add_value(text, value)
}

/// The numbers that were written, after a head.
#[inline(always)]
fn add_numbers(text: &mut Vec<u8>, head: &[u8], numbers: Written) -> Result<(), NoMemory>
    ensures { OnOk result
        (text.new.items ≡ text.old.items ++ (head.now ++ Spec.numbers_text numbers)) }
{
    add_count(text, head, numbers.first)?;
    add_count(text, b"+", numbers.n)
}

/// What a read took, after a space.
pub fn add_took(text: &mut Vec<u8>, scenario: &Scenario, took: &Took) -> Result<(), NoMemory>
    ensures appends { OnOk result
        (text.new.items ≡ text.old.items ++ (codes " " ++ Spec.took_text scenario.now took.now)) }
{
    add_missed(text, took.missed)?;
    add_items(text, scenario, took.first, took.items.as_slice())
}

/// How many messages a read missed. Most miss none.
#[tactic(auto, using(std::proofs::lemmas::Fmt::decimal_digit))]
fn add_missed(text: &mut Vec<u8>, missed: u64) -> Result<(), NoMemory>
    ensures { OnOk result (text.new.items
        ≡ text.old.items ++ (codes " missed " ++ decimal missed ++ codes ":")) }
{
    if missed == 0 {
        return text.extend_from_slice(b" missed 0:");
    }
    add_count(text, b" missed ", missed)?;
    text.extend_from_slice(b":")
}

/// Messages numbered from `first` on, each with a space in front, or ` none`.
fn add_items(
    text: &mut Vec<u8>,
    scenario: &Scenario,
    first: u64,
    items: &[Record],
) -> Result<(), NoMemory>
    ensures { OnOk result
        (text.new.items ≡ text.old.items
        ++ (codes " " ++ Spec.items_text scenario.now first items.now)) }
{
    match items {
        [] => text.extend_from_slice(b" none"),
        [_, ..] => add_more(text, scenario, first, items),
    }
}

fn add_more(
    text: &mut Vec<u8>,
    scenario: &Scenario,
    first: u64,
    items: &[Record],
) -> Result<(), NoMemory>
    ensures appends { OnOk result
        (text.new.items ≡ text.old.items ++ Spec.more_items scenario.now first items.now) }
    ensures no_memory { items.now ≡ [] → IsOk result }
{
    let first = u128::from(first);
    for (k, item) in items.iter().enumerate() {
        add_item(text, scenario, first + k as u128, *item)?;
    }
    Ok(())
}

/// A message with a space in front.
fn add_item(
    text: &mut Vec<u8>,
    scenario: &Scenario,
    number: u128,
    item: Record,
) -> Result<(), NoMemory>
    ensures { OnOk result
        (text.new.items ≡ text.old.items
        ++ (codes " " ++ Spec.item_text scenario.now number item)) }
{
    add_pair(text, number, item.value)?;
    text.extend_from_slice(b"@")?;
    add_writer(text, scenario, item.writer)
}
