ghost use Rattle.std.specs.Prelude.{◌≡◌};

use crate::one_op::take_turn;
use crate::{Access, Cursors, NoMemory, Numbered, Op, Refused, Reply, Start, SystemOf};
use msg_world::{Counts, Lent, Taken, TypeNo, Value};
use std::alloc::Global;
use std::marker::PhantomData;

/// A system that forwards the messages of one type to another. Its program is that one op.
#[derive(Drop)]
pub struct Relay<V = i64> {
    from: TypeNo,
    to: TypeNo,
    start: Start,
    writer: u32,
    cursors: Cursors,
    values: PhantomData<V>,
}

impl<V: Value> Relay<V> {
    ghost use Rattle.msg_system.specs.{declared.op.Op.TheVariants.Forward, Systems.new_system, Systems.only};

    /// It has read nothing yet. It writes as the number `writer`. If `from` and `to` are one
    /// type, it reads and writes that type, and no engine can be built with it.
    pub fn new(from: TypeNo, to: TypeNo, start: Start, writer: u32) -> Relay<V>
        ensures new { ⟦<Relay<V> as SystemOf>⟧.meaning result
            ≡ new_system (only (Forward from to) start) writer }
    {
        Relay {
            from,
            to,
            start,
            writer,
            cursors: Cursors::new(),
            values: PhantomData,
        }
    }
}

impl<V: Value> SystemOf for Relay<V> {
    type Value = V;

    ghost use Rattle.std.specs.Prelude.{IfOk};
    ghost use Rattle.msg_world.specs.Prelude.{SameShape, taken_of};
    ghost use Rattle.msg_system.specs.{Promises.Covers, Promises.Ran};
    ghost use Rattle.msg_system.specs.{declared.op.Op.TheVariants.Forward, OpRuns.cursor_places, Systems.of_program, Systems.only};

    ghost meaning = { λ s.
        of_program (only (Forward s.from s.to) s.start) s.writer (cursor_places s.cursors) };

    fn access(&self) -> Access {
        Access::none()
            .with_read_type(self.from)
            .with_write_type(self.to)
    }

    fn read_type(&self, op: u32) -> Option<TypeNo> {
        if op == 0 { Some(self.from) } else { None }
    }

    fn refused(&self, op: u32, reply: &Reply<V>) -> Option<Refused> {
        if op == 0 {
            Op::Forward(self.from, self.to).refused(reply)
        } else {
            None
        }
    }

    fn begins(&self) -> Start {
        self.start
    }

    fn start(&mut self, counts: &Counts) {
        let access = self.access();
        self.cursors.start(access, self.start, counts);
    }

    #[inline(always)]
    fn run(
        &mut self,
        alloc: Global,
        lent: Lent<V>,
        out: &mut Vec<Reply<V>>,
    ) -> Result<Taken<V>, NoMemory>
        requires covers { Covers (⟦<Relay<V> as SystemOf>⟧.meaning self.old).needs lent }
        ensures ran { IfOk result
            (λ taken. Ran V.values (⟦<Relay<V> as SystemOf>⟧.meaning self.old)
            (⟦<Relay<V> as SystemOf>⟧.meaning self.new)
            lent.entry taken out.old.items out.new.items) }
        ensures shape { IfOk result (λ taken. SameShape (taken_of lent.entry) taken) }
    {
        let op = Op::Forward(self.from, self.to);
        take_turn(alloc, op, self.writer, &mut self.cursors, lent, out)
    }
}

impl<V: Value> Numbered for Relay<V> {
    fn set_number(&mut self, number: u32) {
        self.writer = number;
        self.cursors = Cursors::new();
    }
}
