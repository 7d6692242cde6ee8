// Systems that are one function.
ghost use Rattle.std.specs.Prelude.{◌≡◌, ◌+◌, ◌≤◌, IfOk, OnOk, drop, length};
ghost use Rattle.msg_system.specs.{declared.limits.TheConstants.MAX_OPS, Prelude.Covers, Prelude.IsAccessOf, Prelude.cursor_places};
ghost use Rattle.msg_function.specs.Functions.{ports_needs};

use crate::identity::Identity;
use crate::ports::{access_of, type_at};
use crate::turn::read_ports;
use crate::{Function, Inbox, NoMemory, Outbox, Port};
use msg_system::{Access, Cursors, Items, Numbered, Refused, Reply, Start, SystemOf};
use msg_world::{Counts, Lent, Taken, TypeNo};
use std::alloc::Global;

/// The replies from number `from` on.
fn since<V>(replies: &[Reply<V>], from: usize) -> &[Reply<V>]
    requires within { from ≤ length replies.now }
    ensures rest { result.now ≡ drop from replies.now }
{
    &replies[from..]
}

/// A system that reads some parts, answers once to what came of them, and writes what it answers to
/// others. What it may read and write is what it was made with, and its turn is never cut.
#[derive(Drop)]
pub struct FunctionSystem<T: Function<READS, WRITES>, const READS: usize, const WRITES: usize> {
    function: T,
    reads: Items<Port>,
    writes: Items<Port>,
    outbox: Outbox<T::Value, WRITES>,
    refused: Vec<bool>,
    access: Access,
    start: Start,
    me: Identity,
    ghost is_access: { IsAccessOf (ports_needs reads writes) access },
    ghost within: { length writes ≤ WRITES },
    ghost one_each: { length refused.items ≡ length writes },
    ghost few: { length reads + length writes ≤ MAX_OPS },
}

impl<T: Function<READS, WRITES> + Send, const READS: usize, const WRITES: usize> FunctionSystem<
    T,
    READS,
    WRITES,
> {
    ghost use Rattle.msg_function.specs.Functions.{new_function};
    ghost use Rattle.msg_system.specs.declared.start.Start.TheVariants.{Zero};

    /// It has done nothing yet. It writes as 0 until a builder gives it a number, and reads all
    /// that is kept as it joins.
    ///
    /// It may be made with fewer parts than its function may read and write, as one of an enum of
    /// many kinds is: those after them are absent. An absent part has no messages and no value, what
    /// is answered to it isn't written, and `Inbox::spent` says so.
    pub fn new<const R: usize, const W: usize>(
        alloc: Global,
        function: T,
        reads: [Port; R],
        writes: [Port; W],
    ) -> Result<FunctionSystem<T, READS, WRITES>, NoMemory>
        requires few { READS + WRITES ≤ MAX_OPS }
        requires read { R ≤ READS }
        requires written { W ≤ WRITES }
        ensures new { IfOk result (λ r. ⟦<FunctionSystem<T, READS, WRITES> as SystemOf>⟧.meaning r
            ≡ new_function T.answers reads.entry writes.entry function Zero 0) }
    {
        let access = access_of(&reads, &writes);
        let outbox = Outbox::new(alloc)?;
        Ok(FunctionSystem {
            function,
            reads: Items::from_vec(Vec::from_array(alloc, reads)?),
            writes: Items::from_vec(Vec::from_array(alloc, writes)?),
            outbox,
            refused: Vec::from_array(alloc, [false; W])?,
            access,
            start: Start::Zero,
            me: Identity {
                writer: 0,
                cursors: Cursors::new(),
            },
        })
    }

    /// The same system, but its cursors start here as it joins, and not at `Start::Zero`.
    pub fn starting(mut self, start: Start) -> FunctionSystem<T, READS, WRITES>
        ensures starting { ⟦<FunctionSystem<T, READS, WRITES> as SystemOf>⟧.meaning result ≡ record
            (⟦<FunctionSystem<T, READS, WRITES> as SystemOf>⟧.meaning self) { start = start } }
    {
        self.start = start;
        self
    }
}

impl<T: Function<READS, WRITES> + Send, const READS: usize, const WRITES: usize> SystemOf
    for FunctionSystem<T, READS, WRITES> {
    type Value = T::Value;

    ghost use Rattle.std.specs.Prelude.{◌++◌, map};
    ghost use Rattle.msg_world.specs.Prelude.{SameShape, taken_of};
    ghost use Rattle.msg_system.specs.Prelude.{Ran};
    ghost use Rattle.msg_function.specs.Functions.{answered, of_function, read_op, written_ops};

    ghost meaning = { λ s. of_function T.answers s.reads s.writes
        (record { memory = s.function; refused = s.refused.items }) s.start s.me.writer
        (cursor_places s.me.cursors)
        (map read_op s.reads ++ written_ops s.writes (answered s.outbox)) };

    fn access(&self) -> Access {
        self.access
    }

    fn read_type(&self, op: u32) -> Option<TypeNo> {
        type_at(self.reads.as_slice(), op as usize)
    }

    fn refused(&self, op: u32, reply: &Reply<T::Value>) -> Option<Refused> {
        let place = (op as usize).checked_sub(self.reads.as_slice().len())?;
        self.outbox.refused_at(self.writes.as_slice(), place, reply)
    }

    fn begins(&self) -> Start {
        self.start
    }

    fn start(&mut self, counts: &Counts) {
        self.me.cursors.start(self.access, self.start, counts);
    }

    #[inline(always)]
    fn run(
        &mut self,
        alloc: Global,
        mut lent: Lent<T::Value>,
        out: &mut Vec<Reply<T::Value>>,
    ) -> Result<Taken<T::Value>, NoMemory>
        requires covers { Covers (⟦<FunctionSystem<T, READS, WRITES> as SystemOf>⟧.meaning self.old).needs lent }
        ensures ran { IfOk result
            (λ taken. Ran T.Value.values (⟦<FunctionSystem<T, READS, WRITES> as SystemOf>⟧.meaning self.old)
            (⟦<FunctionSystem<T, READS, WRITES> as SystemOf>⟧.meaning self.new)
            lent.entry taken out.old.items out.new.items) }
        ensures shape { IfOk result (λ taken. SameShape (taken_of lent.entry) taken) }
    {
        let before = out.len();
        read_ports(alloc, self.reads.as_slice(), &mut self.me, &mut lent, out)?;
        self.outbox.clear();
        let inbox = Inbox {
            replies: since(out.as_slice(), before),
            refused: self.refused.as_slice(),
            parts: READS,
            written_parts: WRITES,
        };
        self.function.answer(&inbox, &mut self.outbox)?;
        let read = out.len();
        let writes = self.writes.as_slice();
        self.outbox
            .write_lists(alloc, writes, &mut self.me, &mut lent, out)?;
        let written = since(out.as_slice(), read);
        self.outbox
            .note_refused(writes, written, self.refused.as_mut_slice());
        Ok(lent.into_taken())
    }
}

impl<T: Function<READS, WRITES> + Send, const READS: usize, const WRITES: usize> Numbered
    for FunctionSystem<T, READS, WRITES> {
    fn set_number(&mut self, number: u32) {
        self.me = Identity {
            writer: number,
            cursors: Cursors::new(),
        };
    }
}
