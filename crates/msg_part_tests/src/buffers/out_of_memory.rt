// What a refused write, batch or drain leaves: the buffer and its cursor as they were, and what was
// passed is handed back. A call that was refused memory is made again, and then there is memory.
use crate::equal::{Have, expect_eq};
use crate::outcome::tell;
use msg_buffer::{
    BatchRefusal, Instance, MessageCursor, MessageId, Messages, WriteRefusal, Written,
};
use std::alloc::Global;
use std::io::Print;
use std::process::Abort;
use std::test::Fail;

/// A buffer and a cursor as their callers see them: what is kept under the numbers 0 to 9, what is
/// current, and what the cursor tells.
#[derive(Clone, Copy, PartialEq, Eq)]
struct Seen {
    count: u64,
    oldest: u64,
    kept: [Option<i64>; 10],
    current: usize,
    place: u64,
    unread: u64,
}

/// A buffer, a cursor at 0, and whether a call of the buffer was refused memory.
#[derive(Drop)]
struct Tried {
    buffer: Messages<i64>,
    cursor: MessageCursor,
    is_refused: bool,
}

impl Tried {
    fn new(alloc: Global, limit: u64) -> Tried {
        Tried {
            buffer: Messages::new(alloc, limit),
            cursor: MessageCursor::default(),
            is_refused: false,
        }
    }

    fn look_at(&self) -> Seen {
        let numbers = [0, 1, 2, 3, 4, 5, 6, 7, 8, 9];
        Seen {
            count: self.buffer.count(),
            oldest: self.buffer.oldest(),
            kept: numbers.map(|number| self.buffer.get(MessageId(number)).copied()),
            current: self.buffer.current().len(),
            place: self.cursor.place(),
            unread: self.cursor.len(&self.buffer),
        }
    }

    /// All is as it was seen before.
    fn expect_seen(&self, rt: &impl Abort, before: &Seen) {
        assert!(rt; self.look_at() == *before);
    }

    /// Writes a message. None if no number is left.
    fn write(&mut self, rt: &impl Abort, value: i64) -> Option<MessageId> {
        let before = self.look_at();
        let (back, is_spent) = match self.buffer.write(value) {
            Ok(id) => return Some(id),
            Err(WriteRefusal::NumbersSpent(back)) => (back, true),
            Err(WriteRefusal::NoMemory(back)) => (back, false),
        };
        expect_eq(rt, back, value);
        self.expect_seen(rt, &before);
        if is_spent {
            return None;
        }
        self.is_refused = true;
        self.buffer.write(back).ok()
    }

    /// Writes messages, which get these numbers and have these values.
    fn expect_written(&mut self, rt: &impl Abort, want: &[(u64, i64)]) {
        for (number, value) in want {
            expect_eq(rt, self.write(rt, *value), Some(MessageId(*number)));
        }
    }

    /// Writes a batch of these values. None if too few numbers are left. What is handed back is
    /// the very list: it has the memory that it had.
    fn write_batch(&mut self, rt: &impl Abort, batch: Vec<i64>, values: &[i64]) -> Option<Written> {
        let (before, capacity) = (self.look_at(), batch.capacity());
        let (back, is_spent) = match self.buffer.write_batch(batch) {
            Ok(written) => return Some(written),
            Err(BatchRefusal::NumbersSpent(back)) => (back, true),
            Err(BatchRefusal::NoMemory(back)) => (back, false),
        };
        expect_eq(rt, (back.as_slice(), back.capacity()), (values, capacity));
        self.expect_seen(rt, &before);
        if is_spent {
            drop(back);
            return None;
        }
        self.is_refused = true;
        self.buffer.write_batch(back).ok()
    }

    /// Takes out all messages.
    fn drain(&mut self, rt: &impl Abort) -> Vec<Instance<i64>> {
        let before = self.look_at();
        if let Ok(drained) = self.buffer.drain() {
            return drained;
        }
        self.expect_seen(rt, &before);
        self.is_refused = true;
        self.buffer.drain().have(rt)
    }

    /// Takes out all messages, which have these numbers and values.
    fn expect_drained(&mut self, rt: &impl Abort, want: &[(u64, i64)]) {
        let drained = self.drain(rt);
        expect_eq(rt, drained.len(), want.len());
        for (instance, item) in drained.iter().zip(want) {
            expect_eq(rt, (instance.id.0, instance.message), *item);
        }
        drop(drained);
    }

    /// Reads the next messages, which have these numbers and values.
    fn expect_read(&mut self, rt: &impl Abort, want: &[(u64, i64)]) {
        expect_next(rt, &mut self.cursor, &self.buffer, want);
    }

    /// Reads all messages that are left, which have these numbers and values.
    fn expect_rest(&mut self, rt: &impl Abort, want: &[(u64, i64)]) {
        self.expect_read(rt, want);
        expect_eq(rt, self.cursor.is_empty(&self.buffer), true);
    }

    /// Whether a call was refused.
    fn tell(self, rt: &impl Print) -> Result<(), Fail> {
        let is_refused = self.is_refused;
        drop(self);
        tell(rt, is_refused)
    }
}

/// The next messages for this cursor have these numbers and values.
fn expect_next(
    rt: &impl Abort,
    cursor: &mut MessageCursor,
    buffer: &Messages<i64>,
    want: &[(u64, i64)],
) {
    let mut unread = cursor.read(buffer);
    for item in want {
        let (id, value) = unread.next().have(rt);
        expect_eq(rt, (id.0, *value), *item);
    }
}

#[test]
fn items_left_unread(rt: HostRuntime) -> Result<(), Fail> {
    let rt = &rt;
    let values = [1, 2, 3, 4, 5];
    let batch = Vec::from_slice(rt.alloc(), &values)?;
    let mut tried = Tried::new(rt.alloc(), 10);
    let written = tried.write_batch(rt, batch, &values);
    expect_eq(rt, written, Some(Written { first: 0, n: 5 }));
    tried.expect_read(rt, &[(0, 1), (1, 2)]);
    tried.buffer.update();
    tried.expect_rest(rt, &[(2, 3), (3, 4), (4, 5)]);
    tried.tell(rt)
}

#[test]
fn last_number(rt: HostRuntime) -> Result<(), Fail> {
    let rt = &rt;
    let batch = Vec::from_slice(rt.alloc(), &[1, 2, 3])?;
    let mut tried = Tried::new(rt.alloc(), 2);
    expect_eq(rt, tried.write_batch(rt, batch, &[1, 2, 3]), None);
    tried.expect_written(rt, &[(0, 4), (1, 5)]);
    expect_eq(rt, tried.write(rt, 6), None);
    let written = tried.write_batch(rt, Vec::new(rt.alloc()), &[]);
    expect_eq(rt, written, Some(Written { first: 2, n: 0 }));
    expect_eq(rt, tried.buffer.get(MessageId(u64::MAX)), None);
    tried.expect_rest(rt, &[(0, 4), (1, 5)]);
    tried.tell(rt)
}

#[test]
fn drain_both_halves(rt: HostRuntime) -> Result<(), Fail> {
    let rt = &rt;
    let mut tried = Tried::new(rt.alloc(), 10);
    tried.expect_written(rt, &[(0, 1)]);
    tried.buffer.update();
    tried.expect_written(rt, &[(1, 2)]);
    tried.expect_drained(rt, &[(0, 1), (1, 2)]);
    expect_eq(rt, tried.cursor.missed(&tried.buffer), 2);
    tried.expect_read(rt, &[]);
    tried.expect_written(rt, &[(2, 3)]);
    tried.expect_read(rt, &[(2, 3)]);
    tried.tell(rt)
}

/// Both halves have no room left, so one of them has to grow if they are drained together.
#[test]
fn drain_full_halves(rt: HostRuntime) -> Result<(), Fail> {
    let rt = &rt;
    let mut tried = Tried::new(rt.alloc(), 10);
    let want = [
        (0, 10),
        (1, 11),
        (2, 12),
        (3, 13),
        (4, 14),
        (5, 15),
        (6, 16),
        (7, 17),
    ];
    tried.expect_written(rt, &want[..4]);
    tried.buffer.update();
    tried.expect_written(rt, &want[4..]);
    tried.expect_drained(rt, &want);
    let missed = tried.cursor.missed(&tried.buffer);
    expect_eq(rt, (tried.buffer.is_empty(), missed), (true, 8));
    tried.tell(rt)
}
