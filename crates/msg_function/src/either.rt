// Systems of two kinds, over values of any type.
use msg_system::{Access, NoMemory, Numbered, Refused, Reply, Start, SystemOf};
use msg_world::{Counts, Lent, Taken, TypeNo};
use std::alloc::Global;

/// A system of one kind or of the other, so that an engine can have both. For a third kind, one of
/// the two is such a system again.
#[derive(Drop)]
pub enum Either<A, B> {
    Left(A),
    Right(B),
}

impl<A: SystemOf, B: SystemOf<Value = A::Value>> SystemOf for Either<A, B> {
    type Value = A::Value;

    ghost use Rattle.std.specs.Prelude.{IfOk};
    ghost use Rattle.msg_world.specs.Prelude.{SameShape, taken_of};
    ghost use Rattle.msg_system.specs.Prelude.{Covers, Ran};
    ghost use Rattle.msg_function.specs.declared.either.Either.TheVariants as kind;

    ghost meaning = { elim [ kind.Left a ↦ A.meaning a | kind.Right b ↦ B.meaning b ] };

    fn access(&self) -> Access {
        match self {
            Either::Left(a) => a.access(),
            Either::Right(b) => b.access(),
        }
    }

    fn read_type(&self, op: u32) -> Option<TypeNo> {
        match self {
            Either::Left(a) => a.read_type(op),
            Either::Right(b) => b.read_type(op),
        }
    }

    fn refused(&self, op: u32, reply: &Reply<A::Value>) -> Option<Refused> {
        match self {
            Either::Left(a) => a.refused(op, reply),
            Either::Right(b) => b.refused(op, reply),
        }
    }

    fn begins(&self) -> Start {
        match self {
            Either::Left(a) => a.begins(),
            Either::Right(b) => b.begins(),
        }
    }

    fn start(&mut self, counts: &Counts) {
        match self {
            Either::Left(a) => a.start(counts),
            Either::Right(b) => b.start(counts),
        }
    }

    #[inline(always)]
    fn run(
        &mut self,
        alloc: Global,
        lent: Lent<A::Value>,
        out: &mut Vec<Reply<A::Value>>,
    ) -> Result<Taken<A::Value>, NoMemory>
        requires covers { Covers (⟦<Either<A, B> as SystemOf>⟧.meaning self.old).needs lent }
        ensures ran { IfOk result
            (λ taken. Ran A.Value.values (⟦<Either<A, B> as SystemOf>⟧.meaning self.old)
            (⟦<Either<A, B> as SystemOf>⟧.meaning self.new)
            lent.entry taken out.old.items out.new.items) }
        ensures shape { IfOk result (λ taken. SameShape (taken_of lent.entry) taken) }
    {
        match self {
            Either::Left(a) => a.run(alloc, lent, out),
            Either::Right(b) => b.run(alloc, lent, out),
        }
    }
}

impl<A: Numbered, B: Numbered + SystemOf<Value = A::Value>> Numbered for Either<A, B> {
    fn set_number(&mut self, number: u32) {
        match self {
            Either::Left(a) => a.set_number(number),
            Either::Right(b) => b.set_number(number),
        }
    }
}
