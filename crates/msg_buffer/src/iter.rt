// The unread messages of one read.
#![tactic(auto, using(crate::proofs::Unread::of_reads))]

ghost use Rattle.std.specs.Prelude.{◌≤◌};

use crate::cursor::MessageCursor;
use crate::instance::MessageId;
use crate::messages::Messages;
use std::alloc::{Allocator, Global};

/// The unread messages, the oldest first. Each item taken moves the cursor by one.
#[derive(Drop)]
pub struct MessageIter<'a, M, A: Allocator = Global> {
    pub(crate) cursor: &'a mut MessageCursor,
    pub(crate) messages: &'a Messages<M, A>,
    // The cursor is past the dropped messages.
    ghost past_dropped: { messages.now.oldest ≤ cursor.now },
}

impl<'a, M, A: Allocator> Iterator for MessageIter<'a, M, A> {
    ghost use Rattle.std.specs.{Iterator.at_most, Prelude.length};
    ghost use Rattle.msg_buffer.specs.ReadCalls.{IterSteps, iter_rest};

    type Item = (MessageId, &'a M);

    ghost next_gives = { IterSteps };

    ghost remaining = { λ it. at_most (length (iter_rest it)) };

    fn next(&mut self) -> Option<(MessageId, &'a M)> {
        let messages: &'a Messages<M, A> = self.messages;
        let place = self.cursor.place();
        if place >= messages.count() {
            return None;
        }
        let instance = messages.find(place)?;
        let cursor = &mut *self.cursor;
        cursor.place += 1;
        Some((instance.id, &instance.message))
    }
}

impl<'a, M, A: Allocator> ExactSizeIterator for MessageIter<'a, M, A> {
    fn len(&self) -> usize {
        self.messages.count().saturating_sub(self.cursor.place()) as usize
    }
}
