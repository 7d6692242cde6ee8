// The cursors of a system.
ghost use Rattle.std.specs.Prelude.{◌≡◌};
ghost use Rattle.msg_system.specs.Prelude.{IsAccessOf, Needs, cursor_places, start_place, started_places};

use crate::{Access, Start};
use msg_buffer::MessageCursor;
use msg_world::{Counts, MAX_TYPES, TypeNo};

/// Where a cursor of this type starts.
pub(crate) fn start_cursor(start: Start, counts: &Counts, t: TypeNo) -> MessageCursor
    ensures place { result ≡ start_place start counts.now t }
{
    match start {
        Start::Zero => MessageCursor::new(0),
        Start::Current => MessageCursor::new(counts.of(t).unwrap_or(0)),
    }
}

/// The cursors of a system, one in each type.
#[derive(Drop)]
pub struct Cursors {
    pub(crate) by_type: [MessageCursor; MAX_TYPES],
}

impl Cursors {
    /// They have read nothing yet.
    pub fn new() -> Cursors
        ensures zero { cursor_places result ≡ (λ t. 0) }
    {
        Cursors {
            by_type: [MessageCursor::new(0); MAX_TYPES],
        }
    }

    /// The number of the first message of a type that wasn't given yet.
    pub fn place(&self, t: TypeNo) -> u64
        ensures place { result ≡ cursor_places self.now t }
    {
        self.by_type[t.number() as usize].place()
    }

    /// Sets the cursors of the types that the access reads to where they start, by the counts of
    /// this moment.
    pub fn start(&mut self, access: Access, start: Start, counts: &Counts)
        ensures started { (n : Needs) → IsAccessOf n access
            → cursor_places self.new ≡ started_places n start counts.now (cursor_places self.old) }
    {
        for number in 0..MAX_TYPES as u32 {
            if let Some(t) = TypeNo::new(number) {
                if access.reads_type(t) {
                    self.by_type[number as usize] = start_cursor(start, counts, t);
                }
            }
        }
    }
}
