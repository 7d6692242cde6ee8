// A system that decides to read.
use msg_system::{Behavior, NoMemory, Op, Reply};
use msg_world::TypeNo;
use std::alloc::Global;

/// Reads a type once in each turn.
#[derive(Drop)]
pub struct Reading {
    pub from: TypeNo,
}

impl Behavior for Reading {
    type Value = i64;

    ghost use Rattle.frame_bench.specs.{declared.reader.Reading.Reading, Readings.one_read};

    ghost Memory = { Reading };

    ghost memory = { λ x. x };

    ghost next_op = { one_read };

    ghost remembered = { λ x replies. x };

    fn next(&self, _alloc: Global, replies: &[Reply]) -> Result<Option<Op>, NoMemory> {
        Ok(replies.is_empty().then_some(Op::Read(self.from, None)))
    }

    fn remember(&mut self, _alloc: Global, _replies: &[Reply]) -> Result<(), NoMemory> {
        Ok(())
    }
}
