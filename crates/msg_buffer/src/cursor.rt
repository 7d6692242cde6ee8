// A reader's place.
ghost use Rattle.std.specs.Prelude.{◌≡◌, ℕ, ◌+◌, ◌-◌, ◌^◌, ◌<◌, ◌↔◌, [], length, IsTrue};
ghost use Rattle.msg_buffer.specs.{History.History, History.count, Reader.first, Reader.missed, Reader.unread, StandsFor.StandsFor};

use crate::iter::MessageIter;
use crate::messages::Messages;
use std::alloc::Allocator;
use std::marker::Model;

/// The place of one reader: the number of the first message that it wasn't given yet; 0 by default.
///
/// A cursor may be used on any buffer. If its place is past the buffer's count it finds nothing
/// and keeps its place, until it is cleared.
///
/// ```
/// let mut reader = hits.get_cursor();
/// let (missed, unread) = (reader.missed(&hits), reader.len(&hits));
/// for (_, points) in reader.read(&hits) {
///     println!(rt; "{points}, of {unread} unread; {missed} missed before")?;
/// }
/// ```
#[derive(Clone, Copy, Debug, Default, PartialEq, Eq)]
pub struct MessageCursor {
    pub(crate) place: u64,
}

impl Model for MessageCursor {
    ghost Value = { ℕ };

    ghost view = { λ c. c.place };

    ghost inverse = { λ place. record { place = place } };
}

impl MessageCursor {
    ghost use Rattle.msg_buffer.specs.ReadCalls.{iter_cursor, iter_messages, iter_place, iter_rest};

    /// A cursor at a place of the caller's choice.
    pub fn new(place: u64) -> MessageCursor
        ensures place { result ≡ place }
    {
        MessageCursor { place }
    }

    /// The number of the first message that it wasn't given yet.
    pub fn place(&self) -> u64
        ensures place { result ≡ self.now }
    {
        self.place
    }

    /// How many messages are unread and still kept.
    #[tactic(auto, using(crate::proofs::Unread::of_reads))]
    pub fn len<M, A: Allocator>(&self, messages: &Messages<M, A>) -> u64
        ensures meaning { (h : History M) → StandsFor messages.now h
            → result ≡ length (unread h self.now) }
    {
        let first = self.place.max(messages.oldest());
        messages.count().saturating_sub(first)
    }

    /// Whether nothing is unread.
    pub fn is_empty<M, A: Allocator>(&self, messages: &Messages<M, A>) -> bool
        ensures meaning { (h : History M) → StandsFor messages.now h
            → (IsTrue result ↔ (unread h self.now ≡ [])) }
    {
        self.len(messages) == 0
    }

    /// How many unread messages were dropped. Asking moves nothing.
    pub fn missed<M, A: Allocator>(&self, messages: &Messages<M, A>) -> u64
        ensures meaning { (h : History M) → StandsFor messages.now h
            → result ≡ missed h self.now }
    {
        messages.oldest().saturating_sub(self.place)
    }

    /// Goes past all messages.
    pub fn clear<M, A: Allocator>(&mut self, messages: &Messages<M, A>)
        ensures meaning { (h : History M) → StandsFor messages.now h → self.new ≡ count h }
    {
        self.place = messages.count();
    }

    /// Goes past the dropped messages, and gives the unread ones, the oldest first. Each item taken
    /// moves the cursor by one; items that aren't taken stay unread.
    pub fn read<'a, M, A: Allocator>(
        &'a mut self,
        messages: &'a Messages<M, A>,
    ) -> MessageIter<'a, M, A>
        ensures first { (h : History M) → StandsFor messages.now h
            → iter_place result ≡ first h self.old }
        ensures unread { (h : History M) → StandsFor messages.now h
            → iter_rest result ≡ unread h self.old }

        // The iterator moves this cursor, over these messages.
        ensures cursor { iter_cursor result ≡ self.entry.ghost_name }
        ensures messages { iter_messages result ≡ messages.entry }
    {
        self.place = self.place.max(messages.oldest());
        MessageIter {
            cursor: self,
            messages,
        }
    }
}
