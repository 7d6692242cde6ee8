// Systems that interpret their programs.
ghost use Rattle.std.specs.Prelude.{◌≡◌, ◌<◌, ◌≤◌, OnErr, OnOk, length};
ghost use Rattle.msg_world.specs.Prelude.{SameLoan};
ghost use Rattle.msg_system.specs.{declared.limits.TheConstants.MAX_OPS, Needs.program_needs, OpRuns.cursor_places, inner.TurnRuns.HasReplies, inner.TurnRuns.ProgramRan, Promises.Covers};

use crate::one_op::answer;
use crate::{Access, Cursors, NoMemory, Numbered, Op, Program, Refused, Reply, Start, SystemOf};
use msg_world::{Counts, Lent, Taken, TypeNo, Value};
use std::alloc::Global;

/// The ops one after the other. Their replies take no more room than they need.
#[inline(always)]
fn run_ops<V: Value>(
    alloc: Global,
    ops: &[Op<V>],
    writer: u32,
    cursors: &mut Cursors,
    lent: &mut Lent<V>,
    out: &mut Vec<Reply<V>>,
) -> Result<(), NoMemory>
    requires covers { Covers (program_needs ops.now) lent.old }
    ensures ran { OnOk result (ProgramRan V.values ops.now writer (cursor_places cursors.old)
        (cursor_places cursors.new) lent.old lent.new out.old.items out.new.items) }
    ensures replies { OnOk result (HasReplies out.old.items out.new.items (length ops.now)) }
    ensures same { OnOk result (SameLoan lent.old lent.new) }

    // If there are no ops it takes no memory.
    ensures refused { OnErr result (0 < length ops.now) }
{
    out.reserve_exact(ops.len())?;
    for op in ops {
        answer(alloc, op, writer, cursors, lent, out)?;
    }
    Ok(())
}

/// A system that interprets a program.
#[derive(Drop)]
pub struct Scripted<V = i64> {
    program: Program<V>,
    writer: u32,
    cursors: Cursors,
    ghost few: { length program.ops ≤ MAX_OPS },
}

impl<V: Value> Scripted<V> {
    ghost use Rattle.msg_system.specs.Systems.{new_system};

    /// It has read nothing yet. It writes as the number `writer`.
    pub fn new(program: Program<V>, writer: u32) -> Scripted<V>
        requires few { length program.ops ≤ MAX_OPS }
        ensures new { ⟦<Scripted<V> as SystemOf>⟧.meaning result ≡ new_system program writer }
    {
        Scripted {
            program,
            writer,
            cursors: Cursors::new(),
        }
    }
}

impl<V: Value> SystemOf for Scripted<V> {
    type Value = V;

    ghost use Rattle.std.specs.Prelude.{IfOk};
    ghost use Rattle.msg_world.specs.Prelude.{SameShape, taken_of};
    ghost use Rattle.msg_system.specs.{Promises.Covers, Promises.Ran};
    ghost use Rattle.msg_system.specs.Systems.{of_program};

    ghost meaning = { λ s. of_program s.program s.writer (cursor_places s.cursors) };

    fn access(&self) -> Access {
        self.program.access()
    }

    #[tactic(auto, using(std::proofs::lemmas::Grind::elements))]
    fn read_type(&self, op: u32) -> Option<TypeNo> {
        self.program.ops.as_slice().get(op as usize)?.read_type()
    }

    #[tactic(auto, using(std::proofs::lemmas::Grind::elements))]
    fn refused(&self, op: u32, reply: &Reply<V>) -> Option<Refused> {
        let ops = self.program.ops.as_slice();
        ops.get(op as usize)?.refused(reply)
    }

    fn begins(&self) -> Start {
        self.program.start
    }

    fn start(&mut self, counts: &Counts) {
        self.cursors
            .start(self.program.access(), self.program.start, counts);
    }

    #[inline(always)]
    #[tactic(auto, using(crate::proofs::Turns::ran_program))]
    fn run(
        &mut self,
        alloc: Global,
        mut lent: Lent<V>,
        out: &mut Vec<Reply<V>>,
    ) -> Result<Taken<V>, NoMemory>
        requires covers { Covers (⟦<Scripted<V> as SystemOf>⟧.meaning self.old).needs lent }
        ensures ran { IfOk result
            (λ taken. Ran V.values (⟦<Scripted<V> as SystemOf>⟧.meaning self.old)
            (⟦<Scripted<V> as SystemOf>⟧.meaning self.new)
            lent.entry taken out.old.items out.new.items) }
        ensures shape { IfOk result (λ taken. SameShape (taken_of lent.entry) taken) }

        // Without an op it takes no memory.
        ensures refused { OnErr result
            (0 < length (⟦<Scripted<V> as SystemOf>⟧.meaning self.old).last) }
    {
        let ops = self.program.ops.as_slice();
        run_ops(alloc, ops, self.writer, &mut self.cursors, &mut lent, out)?;
        Ok(lent.into_taken())
    }
}

impl<V: Value> Numbered for Scripted<V> {
    fn set_number(&mut self, number: u32) {
        self.writer = number;
        self.cursors = Cursors::new();
    }
}
