// The parts of a line, made in memory.
ghost use Rattle.std.specs.Prelude.{◌≡◌, ◌++◌, ℤ, List, OnOk, codes, length};
ghost use Rattle.std.specs.Option.{option_copied};
ghost use Rattle.msg_buffer.specs.Prelude.{History, StandsFor, at_most, given, next_place, read};
ghost use Rattle.msg_calls.specs.Prelude.{pair_text, pairs_text, value_text};

use msg_buffer::{Instance, MessageCursor, MessageId, Messages, NoMemory};
use msg_json::numerals::{add_pair, add_value};

/// A message's value, or `none`.
pub fn add_found(text: &mut Vec<u8>, value: Option<&i64>) -> Result<(), NoMemory>
    ensures appends { OnOk result
        (text.new.items ≡ text.old.items ++ value_text (option_copied value.entry)) }
{
    match value {
        Some(value) => add_value(text, *value),
        None => text.extend_from_slice(b"none"),
    }
}

/// A pair with a space in front.
fn add_item(text: &mut Vec<u8>, id: MessageId, message: &i64) -> Result<(), NoMemory>
    ensures { OnOk result (text.new.items
        ≡ text.old.items ++ (codes " " ++ pair_text (record { id = id; message = message.now }))) }
{
    add_pair(text, u128::from(id.0), *message)
}

/// Pairs after a head: each with a space in front, or `none`.
pub fn add_items(text: &mut Vec<u8>, items: &[Instance<i64>]) -> Result<(), NoMemory>
    ensures appends { OnOk result
        (text.new.items ≡ text.old.items ++ (codes " " ++ pairs_text items.now)) }
{
    if items.is_empty() {
        return text.extend_from_slice(b" none");
    }
    for item in items {
        add_item(text, item.id, &item.message)?;
    }
    Ok(())
}

/// The unread messages, or the first of them if there is a limit, as items.
pub fn add_unread(
    text: &mut Vec<u8>,
    cursor: &mut MessageCursor,
    limit: Option<u32>,
    messages: &Messages<i64>,
) -> Result<(), NoMemory>
    ensures appends { OnOk result ((h : History ℤ) → StandsFor messages.now h
        → text.new.items
        ≡ text.old.items ++ (codes " " ++ pairs_text (given h cursor.old limit))) }
    ensures place { OnOk result ((h : History ℤ) → StandsFor messages.now h
        → cursor.new ≡ next_place (read h cursor.old limit)) }
{
    let number = number_given(limit, cursor.len(messages));
    let mut unread = cursor.read(messages);
    if number == 0 {
        return text.extend_from_slice(b" none");
    }
    for _ in 0..number {
        let Some((id, message)) = unread.next() else {
            break;
        };
        add_item(text, id, message)?;
    }
    Ok(())
}

/// How many messages a read gives, if so many are unread.
fn number_given(limit: Option<u32>, unread: u64) -> u64
    ensures { (xs : List (Instance ℤ)) → length xs ≡ unread
        → result ≡ length (at_most limit xs) }
{
    match limit {
        None => unread,
        Some(most) => unread.min(u64::from(most)),
    }
}
