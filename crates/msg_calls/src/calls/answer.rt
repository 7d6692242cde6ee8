// One call on a buffer and its cursors, and its line.
ghost use Rattle.std.specs.Prelude.{◌≡◌, ◌<◌, ℤ, ◌++◌, ◌∷◌, [], OnOk, codes, decimal, length, true};
ghost use Rattle.msg_buffer.specs.Prelude.{History, StandsFor, write};
ghost use Rattle.msg_calls.specs.{inner.Running.AreIn, Prelude.BufferState, Prelude.after, Prelude.has_cursor, Prelude.pairs_text, Prelude.line, Prelude.range_text};

use crate::call::Call;
use crate::calls::text::{add_found, add_items, add_unread};
use msg_buffer::{
    BatchRefusal, Instance, MessageCursor, MessageId, Messages, NoMemory, WriteRefusal,
};
use msg_json::numerals::add_count;
use msg_world::Items;
use std::alloc::Global;

/// Makes a call, and adds its line to the text.
pub fn answer(
    alloc: Global,
    call: &Call,
    messages: &mut Messages<i64>,
    cursors: &mut Vec<MessageCursor>,
    text: &mut Vec<u8>,
) -> Result<(), NoMemory>
    requires { has_cursor (length cursors.old.items) call.now ≡ true }
    ensures line { OnOk result ((s : BufferState) → AreIn messages.old cursors.old.items s
        → text.new.items ≡ text.old.items ++ line call.now s) }
    ensures state { OnOk result ((s : BufferState) → AreIn messages.old cursors.old.items s
        → AreIn messages.new cursors.new.items (after call.now s)) }
{
    match call {
        Call::Write(value) => write(*value, messages, text),
        Call::Batch(values) => write_batch(alloc, values, messages, text),
        Call::Update => {
            messages.update();
            text.extend_from_slice(b"update\n")
        }
        Call::Read(cursor, limit) => read(*cursor, *limit, messages, cursors, text),
        Call::Missed(cursor) => {
            let missed = cursors[*cursor as usize].missed(messages);
            add_cursor(text, b"missed ", *cursor, missed)
        }
        Call::Len(cursor) => {
            let unread = cursors[*cursor as usize].len(messages);
            add_cursor(text, b"len ", *cursor, unread)
        }
        Call::Clear(cursor) => clear(*cursor, messages, cursors, text),
        Call::Cursor => make(messages.get_cursor(), cursors, text),
        Call::CursorCurrent => make(messages.get_cursor_current(), cursors, text),
        Call::Get(number) => {
            add_count(text, b"get ", *number)?;
            text.extend_from_slice(b" ")?;
            add_found(text, messages.get(MessageId(*number)))?;
            text.extend_from_slice(b"\n")
        }
        Call::Current => add_list(text, b"current:", messages.current()),
        Call::Oldest => add_line(text, b"oldest ", messages.oldest()),
        Call::Count => add_line(text, b"count ", messages.count()),
        Call::Total => add_line(text, b"total ", messages.len()),
        Call::Drain => {
            let items = messages.drain()?;
            add_list(text, b"drain:", items.as_slice())
        }
        Call::ClearAll => {
            messages.clear();
            text.extend_from_slice(b"clear_all\n")
        }
    }
}

/// A line of a head and a number.
fn add_line(text: &mut Vec<u8>, head: &[u8], number: u64) -> Result<(), NoMemory>
    ensures { OnOk result (text.new.items ≡ text.old.items
        ++ (head.now ++ decimal number ++ codes "\n")) }
{
    add_count(text, head, number)?;
    text.extend_from_slice(b"\n")
}

/// A line of a head, a cursor and a number.
fn add_cursor(text: &mut Vec<u8>, head: &[u8], cursor: u32, number: u64) -> Result<(), NoMemory>
    ensures { OnOk result (text.new.items ≡ text.old.items
        ++ (head.now ++ decimal cursor ++ codes " " ++ decimal number ++ codes "\n")) }
{
    add_count(text, head, u64::from(cursor))?;
    add_line(text, b" ", number)
}

/// A line of a head and items.
fn add_list(text: &mut Vec<u8>, head: &[u8], items: &[Instance<i64>]) -> Result<(), NoMemory>
    ensures { OnOk result (text.new.items ≡ text.old.items
        ++ (head.now ++ codes " " ++ pairs_text items.now ++ codes "\n")) }
{
    text.extend_from_slice(head)?;
    add_items(text, items)?;
    text.extend_from_slice(b"\n")
}

/// A line of a write that gave these numbers.
fn add_written(text: &mut Vec<u8>, head: &[u8], first: u64, number: u64) -> Result<(), NoMemory>
    ensures { OnOk result (text.new.items ≡ text.old.items
        ++ (head.now ++ (decimal first ++ codes "+" ++ decimal number) ++ codes "\n")) }
{
    add_count(text, head, first)?;
    add_line(text, b"+", number)
}

fn write(value: i64, messages: &mut Messages<i64>, text: &mut Vec<u8>) -> Result<(), NoMemory>
    ensures line { OnOk result ((h : History ℤ) → StandsFor messages.old h
        → text.new.items ≡ text.old.items ++ (codes "write " ++ range_text h 1 ++ codes "\n")) }
    ensures state { OnOk result ((h : History ℤ) → StandsFor messages.old h
        → StandsFor messages.new (write (value ∷ []) h)) }
{
    match messages.write(value) {
        Ok(id) => add_written(text, b"write ", id.0, 1),
        Err(WriteRefusal::NumbersSpent(_)) => text.extend_from_slice(b"write spent\n"),
        Err(WriteRefusal::NoMemory(_)) => Err(NoMemory),
    }
}

fn write_batch(
    alloc: Global,
    values: &Items<i64>,
    messages: &mut Messages<i64>,
    text: &mut Vec<u8>,
) -> Result<(), NoMemory>
    ensures line { OnOk result ((h : History ℤ) → StandsFor messages.old h
        → text.new.items
        ≡ text.old.items ++ (codes "batch " ++ range_text h (length values.now) ++ codes "\n")) }
    ensures state { OnOk result ((h : History ℤ) → StandsFor messages.old h
        → StandsFor messages.new (write values.now h)) }
{
    let batch = values.as_slice().to_vec(alloc)?;
    match messages.write_batch(batch) {
        Ok(written) => add_written(text, b"batch ", written.first, written.n),
        Err(BatchRefusal::NumbersSpent(_)) => text.extend_from_slice(b"batch spent\n"),
        Err(BatchRefusal::NoMemory(_)) => Err(NoMemory),
    }
}

/// One cursor more.
fn make(
    cursor: MessageCursor,
    cursors: &mut Vec<MessageCursor>,
    text: &mut Vec<u8>,
) -> Result<(), NoMemory>
    ensures line { OnOk result (text.new.items
        ≡ text.old.items ++ (codes "cursor " ++ decimal (length cursors.old.items)
        ++ codes " place " ++ decimal cursor ++ codes "\n")) }
    ensures made { OnOk result (cursors.new.items ≡ cursors.old.items ++ cursor ∷ []) }
{
    add_count(text, b"cursor ", cursors.len() as u64)?;
    add_count(text, b" place ", cursor.place())?;
    cursors.push(cursor)?;
    text.extend_from_slice(b"\n")
}

/// Reads by a cursor.
fn read(
    number: u32,
    limit: Option<u32>,
    messages: &Messages<i64>,
    cursors: &mut Vec<MessageCursor>,
    text: &mut Vec<u8>,
) -> Result<(), NoMemory>
    requires { number < length cursors.old.items }
    ensures line { OnOk result ((s : BufferState) → AreIn messages.now cursors.old.items s
        → text.new.items ≡ text.old.items ++ line (Call.Read number limit) s) }
    ensures state { OnOk result ((s : BufferState) → AreIn messages.now cursors.old.items s
        → AreIn messages.now cursors.new.items (after (Call.Read number limit) s)) }
{
    let mut cursor = cursors[number as usize];
    add_count(text, b"read ", u64::from(number))?;
    add_count(text, b" missed ", cursor.missed(messages))?;
    text.extend_from_slice(b":")?;
    add_unread(text, &mut cursor, limit, messages)?;
    cursors[number as usize] = cursor;
    text.extend_from_slice(b"\n")
}

/// Goes past all that is unread.
fn clear(
    number: u32,
    messages: &Messages<i64>,
    cursors: &mut Vec<MessageCursor>,
    text: &mut Vec<u8>,
) -> Result<(), NoMemory>
    requires { number < length cursors.old.items }
    ensures line { OnOk result ((s : BufferState) → AreIn messages.now cursors.old.items s
        → text.new.items ≡ text.old.items ++ line (Call.Clear number) s) }
    ensures state { OnOk result ((s : BufferState) → AreIn messages.now cursors.old.items s
        → AreIn messages.now cursors.new.items (after (Call.Clear number) s)) }
{
    let mut cursor = cursors[number as usize];
    add_count(text, b"clear ", u64::from(number))?;
    add_count(text, b" missed ", cursor.missed(messages))?;
    add_count(text, b" cleared ", cursor.len(messages))?;
    cursor.clear(messages);
    cursors[number as usize] = cursor;
    text.extend_from_slice(b"\n")
}
