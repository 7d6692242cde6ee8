// One half of a buffer.
ghost use Rattle.std.specs.Prelude.{◌≡◌, []};
ghost use Rattle.std.specs.Option.{option_copied};
ghost use Rattle.msg_buffer.specs.Prelude.{get_from};

use crate::instance::Instance;
use std::alloc::Allocator;

/// Messages under consecutive numbers.
#[derive(Drop)]
pub(crate) struct MessageSequence<M, A: Allocator> {
    /// The number of the first message, or of the next one if there is none.
    pub(crate) start: u64,
    pub(crate) instances: Vec<Instance<M>, A>,
}

impl<M, A: Allocator> MessageSequence<M, A> {
    pub(crate) fn new(alloc: A) -> MessageSequence<M, A>
        ensures start { result.start ≡ 0 }
        ensures empty { result.instances.items ≡ [] }
    {
        MessageSequence {
            start: 0,
            instances: Vec::new(alloc),
        }
    }

    /// The message under this number.
    pub(crate) fn get(&self, number: u64) -> Option<&Instance<M>>
        ensures { option_copied result ≡ get_from self.now.start self.now.instances.items number }
    {
        if number < self.start {
            return None;
        }
        self.instances.get((number - self.start) as usize)
    }
}

impl<M: Drop, A: Allocator> MessageSequence<M, A> {
    /// Drops all messages; the next one gets this number.
    pub(crate) fn restart(&mut self, start: u64)
        ensures start { self.new.start ≡ start }
        ensures empty { self.new.instances.items ≡ [] }
    {
        self.instances.clear();
        self.start = start;
    }
}
