// The buffer: what each call does to the history that it stands for.
ghost use Rattle.std.specs.Prelude.{◌≡◌, ◌+◌, ◌-◌, ◌<◌, ◌≤◌, ◌↔◌, List, [], ◌∷◌, length, IsTrue, IfOk, IfErr, OnOk, OnErr, IsOk};
ghost use Rattle.std.specs.{Fn.FnReturnsAt, List.AllZip, Option.option_copied};
ghost use Rattle.msg_buffer.specs.Prelude.{History, IsBatchSpent, IsSpent, StandsFor, batch_refused, clear, count, current, empty, get, get_from, kept_count, kept_instances, message_refused, oldest, present, update, write};

use crate::batch::{append_each, append_numbered};
use crate::cursor::MessageCursor;
use crate::instance::{Instance, MessageId, Written};
use crate::refusals::{BatchRefusal, NoMemory, WriteRefusal};
use crate::sequence::MessageSequence;
use std::alloc::{Allocator, Global};
use std::marker::Model;
use std::mem::{replace, swap};

/// The messages of one type: a message outlives the next update, and is dropped by the second. A
/// clear drops all messages, and a drain takes all out.
///
/// Each message gets the next number, from 0 on, and numbers aren't used again. At most `limit`
/// messages can ever be written.
///
/// ```
/// let mut hits = Messages::new(alloc, 100);
/// let mut reader = hits.get_cursor();
/// hits.write(7)?;
/// for (id, points) in reader.read(&hits) {
///     println!(rt; "{}: {points}", id.0)?;
/// }
/// hits.update();
/// ```
#[derive(Drop)]
pub struct Messages<M, A: Allocator = Global> {
    /// What was written before the last update.
    older: MessageSequence<M, A>,
    /// What was written since.
    newer: MessageSequence<M, A>,
    /// How many messages were ever written.
    count: u64,
    limit: u64,
}

impl<M, A: Allocator> Model for Messages<M, A> {
    ghost use Rattle.msg_buffer.specs.Kept.{HasBounds, Kept};

    ghost Value = { Kept M };

    ghost view = { λ s.
        record {
          limit = s.limit;
          oldest = s.older.start;
          older = s.older.instances.items;
          newer = s.newer.instances.items;
        } };

    ghost invariant = { λ s.
        HasBounds s.limit s.count
        s.older.start s.newer.start s.older.instances.items s.newer.instances.items };
}

impl<M, A: Allocator + Copy> Messages<M, A> {
    /// An empty buffer that takes `limit` messages.
    pub fn new(alloc: A, limit: u64) -> Messages<M, A>
        ensures meaning { StandsFor result (empty limit) }
    {
        Messages {
            older: MessageSequence::new(alloc),
            newer: MessageSequence::new(alloc),
            count: 0,
            limit,
        }
    }
}

impl<M, A: Allocator> Messages<M, A> {
    /// The number of the oldest message that is kept, or of the next one if none is.
    pub fn oldest(&self) -> u64
        ensures meaning { (h : History M) → StandsFor self.now h → result ≡ oldest h }
        ensures kept { result ≡ self.now.oldest }
    {
        self.older.start
    }

    /// How many messages were ever written: the number that the next one gets.
    pub fn count(&self) -> u64
        ensures meaning { (h : History M) → StandsFor self.now h → result ≡ count h }
        ensures kept { result ≡ kept_count self.now }
    {
        self.count
    }

    /// A law: a buffer stands for some history, if the message type has a value at all. In that
    /// history such a value stands for each message that was dropped.
    pub fn stands_for_some(&self)
        ensures history { (m : M) → (h : History M) × StandsFor self.now h }
    {
        // Proof: what holds of every buffer is known once a field of it is read.
        let _count = self.count;
    }

    /// How many messages are kept.
    pub fn len(&self) -> u64
        ensures meaning { (h : History M) → StandsFor self.now h → result ≡ length (present h) }
    {
        self.count - self.older.start
    }

    /// Whether no message is kept.
    pub fn is_empty(&self) -> bool
        ensures meaning { (h : History M) → StandsFor self.now h
            → (IsTrue result ↔ (present h ≡ [])) }
    {
        self.len() == 0
    }

    /// The message with this number, while it is kept.
    pub fn get(&self, id: MessageId) -> Option<&M>
        ensures meaning { (h : History M) → StandsFor self.now h
            → option_copied result ≡ get h id.0 }
    {
        let instance = self.find(id.0)?;
        Some(&instance.message)
    }

    /// What is kept under this number.
    pub(crate) fn find(&self, number: u64) -> Option<&Instance<M>>
        ensures { option_copied result ≡ get_from self.now.oldest (kept_instances self.now) number }
    {
        if number < self.newer.start {
            self.older.get(number)
        } else {
            self.newer.get(number)
        }
    }

    /// The messages written since the last update.
    pub fn current(&self) -> &[Instance<M>]
        ensures meaning { (h : History M) → StandsFor self.now h → result.now ≡ current h }
    {
        self.newer.instances.as_slice()
    }

    /// A cursor that was given nothing: it reads all that is kept.
    pub fn get_cursor(&self) -> MessageCursor
        ensures place { result ≡ 0 }
    {
        MessageCursor::default()
    }

    /// A cursor that reads what is written from now on.
    pub fn get_cursor_current(&self) -> MessageCursor
        ensures meaning { (h : History M) → StandsFor self.now h → result ≡ count h }
    {
        MessageCursor::new(self.count)
    }

    /// Writes one message.
    pub fn write(&mut self, message: M) -> Result<MessageId, WriteRefusal<M>>
        ensures meaning { OnOk result ((h : History M) → StandsFor self.old h
            → StandsFor self.new (write (message ∷ []) h)) }
        ensures number { IfOk result (λ id. (h : History M) → StandsFor self.old h
            → id.0 ≡ count h) }

        // If no number is left it is refused for that, and else it fits or memory is refused.
        ensures room { OnOk result ((h : History M) → StandsFor self.old h
            → count h + 1 ≤ h.limit) }
        ensures spent { IfErr result (λ e. (h : History M) → StandsFor self.old h
            → (IsSpent e ↔ (h.limit < count h + 1))) }

        // A refusal changes nothing, and hands the message back.
        ensures err { OnErr result (self.new ≡ self.old) }
        ensures handed_back { IfErr result (λ e. message_refused e ≡ message) }
    {
        if self.count >= self.limit {
            return Err(WriteRefusal::NumbersSpent(message));
        }
        let id = MessageId(self.count);
        match self.newer.instances.push(Instance { id, message }) {
            Ok(()) => {
                self.count += 1;
                Ok(id)
            }
            Err(failed) => {
                let Instance { id: _, message } = failed.value;
                Err(WriteRefusal::NoMemory(message))
            }
        }
    }
}

impl<M: Drop, A: Allocator> Messages<M, A> {
    /// Writes all messages, under consecutive numbers, or none.
    pub fn write_batch(&mut self, batch: Vec<M, A>) -> Result<Written, BatchRefusal<M, A>>
        ensures meaning { OnOk result ((h : History M) → StandsFor self.old h
            → StandsFor self.new (write batch.items h)) }
        ensures first { IfOk result (λ w. (h : History M) → StandsFor self.old h
            → w.first ≡ count h) }
        ensures number { IfOk result (λ w. w.n ≡ length batch.items) }

        // If too few numbers are left it is refused for that, and else all messages fit or
        // memory is refused. An empty batch always fits.
        ensures room { OnOk result ((h : History M) → StandsFor self.old h
            → count h + length batch.items ≤ h.limit) }
        ensures spent { IfErr result (λ e. (h : History M) → StandsFor self.old h
            → (IsBatchSpent e ↔ (h.limit < count h + length batch.items))) }
        ensures empty { batch.items ≡ [] → IsOk result }

        // A refusal changes nothing, and hands the very list back.
        ensures err { OnErr result (self.new ≡ self.old) }
        ensures handed_back { IfErr result (λ e. batch_refused e ≡ batch) }
    {
        let first = self.count;
        let n = batch.len() as u64;
        if n > self.limit - first {
            return Err(BatchRefusal::NumbersSpent(batch));
        }
        if self.newer.instances.reserve(batch.len()).is_err() {
            return Err(BatchRefusal::NoMemory(batch));
        }
        append_numbered(&mut self.newer.instances, first, batch);
        self.count = first + n;
        Ok(Written { first, n })
    }

    /// Makes each message one update older, and drops those that were written two updates ago.
    pub fn update(&mut self)
        ensures meaning { (h : History M) → StandsFor self.old h → StandsFor self.new (update h) }
    {
        if self.older.start == self.count {
            // Nothing is kept.
            return;
        }
        swap(&mut self.older, &mut self.newer);
        self.newer.restart(self.count);
    }

    /// Drops all messages.
    pub fn clear(&mut self)
        ensures meaning { (h : History M) → StandsFor self.old h → StandsFor self.new (clear h) }
    {
        self.older.restart(self.count);
        self.newer.restart(self.count);
    }
}

impl<M: Drop, A: Allocator + Copy> Messages<M, A> {
    /// Writes what the function makes of each item, under consecutive numbers, or nothing.
    pub fn write_each<T, F: Fn(&T) -> M>(
        &mut self,
        items: &[T],
        message_of: F,
    ) -> Result<Written, WriteRefusal<()>>
        requires callable { F.IsAlwaysCallable message_of }
        ensures meaning { OnOk result ((ms : List M)
            × AllZip (FnReturnsAt F.Fn message_of) items.now ms
            × ((h : History M) → StandsFor self.old h → StandsFor self.new (write ms h))) }
        ensures first { IfOk result (λ w. (h : History M) → StandsFor self.old h
            → w.first ≡ count h) }
        ensures number { IfOk result (λ w. w.n ≡ length items.now) }

        // If too few numbers are left it is refused for that, and else all items fit or memory
        // is refused. An empty list of items always fits.
        ensures room { OnOk result ((h : History M) → StandsFor self.old h
            → count h + length items.now ≤ h.limit) }
        ensures spent { IfErr result (λ e. (h : History M) → StandsFor self.old h
            → (IsSpent e ↔ (h.limit < count h + length items.now))) }
        ensures empty { items.now ≡ [] → IsOk result }

        // A refusal changes nothing.
        ensures err { OnErr result (self.new ≡ self.old) }
    {
        let first = self.count;
        let n = items.len() as u64;
        if n > self.limit - first {
            return Err(WriteRefusal::NumbersSpent(()));
        }
        if self.newer.instances.reserve(items.len()).is_err() {
            return Err(WriteRefusal::NoMemory(()));
        }
        let alloc = *self.newer.instances.allocator();
        let instances = replace(&mut self.newer.instances, Vec::new(alloc));
        self.newer.instances = append_each(instances, first, items, message_of);
        self.count = first + n;
        Ok(Written { first, n })
    }

    /// Takes all messages out, the older ones first.
    pub fn drain(&mut self) -> Result<Vec<Instance<M>, A>, NoMemory>
        ensures given { IfOk result (λ v. (h : History M) → StandsFor self.old h
            → v.items ≡ present h) }
        ensures meaning { OnOk result ((h : History M) → StandsFor self.old h
            → StandsFor self.new (clear h)) }
        ensures err { OnErr result (self.new ≡ self.old) }

        // If nothing is kept it asks for no memory.
        ensures refused { OnErr result ((h : History M) → StandsFor self.old h
            → 0 < length (present h)) }
    {
        let older = &mut self.older;
        older.instances.append(&mut self.newer.instances)?;
        let alloc = *older.instances.allocator();
        let drained = replace(&mut older.instances, Vec::new(alloc));
        older.start = self.count;
        self.newer.start = self.count;
        Ok(drained)
    }
}
