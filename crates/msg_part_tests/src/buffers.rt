// Buffers: what calls files can't show, and the texts of refusals.
mod out_of_memory;

use crate::equal::{Have, expect_eq, expect_text};
use msg_buffer::{BatchRefusal, MessageId, Messages, WriteRefusal, Written};
use std::process::Abort;
use std::sync::atomic::{AtomicU64, Ordering};

#[test]
fn cursor_past_the_count(rt: HostRuntime) {
    let rt = &rt;
    let mut buffer = Messages::new(rt.alloc(), 10);
    buffer.write_batch(numbers(rt, 3)).have(rt);
    let mut cursor = buffer.get_cursor_current();
    let fresh: Messages<i64> = Messages::new(rt.alloc(), 10);
    expect_eq(rt, (cursor.missed(&fresh), cursor.len(&fresh)), (0, 0));
    expect_eq(rt, cursor.read(&fresh).next(), None);
    expect_eq(rt, cursor.place(), 3);
    cursor.clear(&fresh);
    expect_eq(rt, cursor.place(), 0);
    drop(buffer);
    drop(fresh);
}

#[test]
fn refusals_say_why(rt: HostRuntime) {
    let rt = &rt;
    let none_left: WriteRefusal<i64> = WriteRefusal::NumbersSpent(1);
    expect_text(rt, &none_left, "no number is left");
    let refused: WriteRefusal<i64> = WriteRefusal::NoMemory(1);
    expect_text(rt, &refused, "want of memory");
    let few_left: BatchRefusal<i64> = BatchRefusal::NumbersSpent(Vec::new(rt.alloc()));
    expect_text(rt, &few_left, "too few numbers are left");
    let refused: BatchRefusal<i64> = BatchRefusal::NoMemory(Vec::new(rt.alloc()));
    expect_text(rt, &refused, "want of memory");
}

/// So many messages were written, the first of them under this number.
fn written(first: u64, n: u64) -> Option<Written> {
    Some(Written { first, n })
}

/// Two items are written, and for two more too few numbers are left: what makes the messages is
/// asked once for each of the first two, and for nothing else.
#[test]
fn each_item_makes_one_message(rt: HostRuntime) {
    let rt = &rt;
    let asked = AtomicU64::new(0);
    let message_of = |value: &i64| -> i64 {
        asked.fetch_add(1, Ordering::SeqCst);
        value.wrapping_mul(10)
    };
    let mut buffer = Messages::new(rt.alloc(), 3);
    let wrote = buffer.write_each(&[5, 6], &message_of).ok();
    expect_eq(rt, wrote, written(0, 2));
    let refused = buffer.write_each(&[7, 8], &message_of);
    let is_spent = matches!(refused, Err(WriteRefusal::NumbersSpent(())));
    expect_eq(rt, is_spent, true);
    let none = buffer.write_each(&[], &message_of).ok();
    expect_eq(rt, none, written(2, 0));
    expect_eq(rt, asked.load(Ordering::SeqCst), 2);
    drop(buffer);
}

/// The numbers from 0 to below this one.
fn numbers(rt: &(impl Abort + AllocGlobal), end: i64) -> Vec<i64> {
    (0..end).collect(rt.alloc()).have(rt)
}

/// A buffer with more than a million messages, written one by one.
fn after_a_million(rt: &(impl Abort + AllocGlobal)) -> Messages<i64> {
    let mut buffer = Messages::new(rt.alloc(), u64::MAX);
    for number in 0..1_100_000 {
        buffer.write(number).have(rt);
    }
    buffer
}

/// More than a million messages in one buffer, of which the last come in batches. All are drained.
#[test]
fn more_than_a_million_messages(rt: HostRuntime) {
    let rt = &rt;
    let mut buffer = after_a_million(rt);
    let wrote = buffer.write_batch(numbers(rt, 4_097)).ok();
    expect_eq(rt, wrote, written(1_100_000, 4_097));
    let wrote = buffer.write_batch(numbers(rt, 1)).ok();
    expect_eq(rt, wrote, written(1_104_097, 1));
    let items = numbers(rt, 100_001);
    let same = |value: &i64| -> i64 { *value };
    let wrote = buffer.write_each(&items, &same).ok();
    expect_eq(rt, wrote, written(1_104_098, 100_001));
    drop(items);
    let all = buffer.drain().have(rt);
    drop(buffer);
    expect_eq(rt, all.len(), 1_204_099);
    drop(all);
}
