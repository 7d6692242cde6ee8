// What every system promises, and every boxed one.
use crate::{Access, NoMemory, Refused, Reply, Start};
use msg_world::{Counts, Lent, Taken, TypeNo, Value};
use std::alloc::Global;

/// A system over a world of any values. Contracts say what it means: a rule that gives the ops of
/// its turns by the replies so far, the access that these ops keep to, where its cursors start, the
/// number that it writes as, and its place in each type.
///
/// `Scripted`, `Relay`, `Tally` and `BehaviorSystem` are systems. Whoever implements it writes the
/// clauses of `run` again, as `Relay` does. An engine calls systems; by hand:
///
/// ```
/// system.start(&world.counts());
/// let access = system.access();
/// let taken = world.lend_out(&access)?;
/// let mut replies = Vec::new(alloc);
/// let taken = system.run(alloc, Lent::open(&world, &access, taken), &mut replies)?;
/// world.take_back(taken);
/// ```
pub trait SystemOf: Drop {
    /// What its messages and resources hold.
    type Value: Value;

    ghost use Rattle.std.specs.Prelude.{◌≡◌, IfOk};
    ghost use Rattle.msg_world.specs.Prelude.{SameShape, taken_of};
    ghost use Rattle.msg_system.specs.{Needs.IsAccessOf, Needs.refused_in, Needs.type_read_by, Promises.Covers, Promises.Ran, Systems.Meaning, Systems.after_start};

    // What it does from now on. Of the calls of this trait only `start` and `run` change it.
    ghost meaning: { Self → Meaning Self.Value };

    /// What its ops may read and write.
    fn access(&self) -> Access
        ensures needs { IsAccessOf (meaning self.now).needs result };

    /// The type that an op of its last turn reads, or of its program if it has one; `op` counts
    /// them from 0. None if that op reads no type, or there is no such op.
    fn read_type(&self, op: u32) -> Option<TypeNo>
        ensures type_read { result ≡ type_read_by (meaning self.now).last op };

    /// What an op of its last turn didn't write, if it was answered so: too few numbers of the
    /// type were left. `op` counts as for `read_type`.
    fn refused(&self, op: u32, reply: &Reply<Self::Value>) -> Option<Refused>
        ensures refused { result ≡ refused_in (meaning self.now).last op reply.now };

    /// Where its cursors start.
    fn begins(&self) -> Start
        ensures start { result ≡ (meaning self.now).start };

    /// Sets its cursors to where they start, by the counts of this moment.
    fn start(&mut self, counts: &Counts)
        ensures started { meaning self.new ≡ after_start counts.now (meaning self.old) };

    /// Takes its turn on a loan that covers its access, and gives back what the loan owned. The
    /// replies are appended, one for each op, and one more if the turn was cut. After `NoMemory`
    /// nothing is known of the system or of the replies, and the loan is gone.
    fn run(
        &mut self,
        alloc: Global,
        lent: Lent<Self::Value>,
        out: &mut Vec<Reply<Self::Value>>,
    ) -> Result<Taken<Self::Value>, NoMemory>
        requires covers { Covers (meaning self.old).needs lent }
        ensures ran { IfOk result
            (λ taken. Ran Self.Value.values (meaning self.old) (meaning self.new)
            lent.entry taken out.old.items out.new.items) }
        // So what is given back may be taken back.
        ensures shape { IfOk result (λ taken. SameShape (taken_of lent.entry) taken) };
}

/// A system over a world of `i64`, which an engine may keep in a box (`Box<dyn System>`). Its calls
/// are those of `SystemOf`, and each `SystemOf<Value = i64>` that may be sent is one.
pub trait System: Send + Drop {
    ghost use Rattle.std.specs.Prelude.{◌≡◌, ℤ, IfOk};
    ghost use Rattle.msg_world.specs.Prelude.{SameShape, i64_values, taken_of};
    ghost use Rattle.msg_system.specs.{Needs.IsAccessOf, Needs.refused_in, Needs.type_read_by, Promises.Covers, Promises.Ran, Systems.Meaning, Systems.after_start};

    // What it does from now on. Of the calls of this trait only `start` and `run` change it.
    ghost meaning: { Self → Meaning ℤ };

    /// What its ops may read and write.
    fn access(&self) -> Access
        ensures needs { IsAccessOf (meaning self.now).needs result };

    /// The type that an op of its last turn reads, or of its program if it has one; `op` counts
    /// them from 0. None if that op reads no type, or there is no such op.
    fn read_type(&self, op: u32) -> Option<TypeNo>
        ensures type_read { result ≡ type_read_by (meaning self.now).last op };

    /// What an op of its last turn didn't write, if it was answered so: too few numbers of the
    /// type were left. `op` counts as for `read_type`.
    fn refused(&self, op: u32, reply: &Reply) -> Option<Refused>
        ensures refused { result ≡ refused_in (meaning self.now).last op reply.now };

    /// Where its cursors start.
    fn begins(&self) -> Start
        ensures start { result ≡ (meaning self.now).start };

    /// Sets its cursors to where they start, by the counts of this moment.
    fn start(&mut self, counts: &Counts)
        ensures started { meaning self.new ≡ after_start counts.now (meaning self.old) };

    /// Takes its turn on a loan that covers its access, and gives back what the loan owned. The
    /// replies are appended, one for each op, and one more if the turn was cut. After `NoMemory`
    /// nothing is known of the system or of the replies, and the loan is gone.
    fn run(&mut self, alloc: Global, lent: Lent, out: &mut Vec<Reply>) -> Result<Taken, NoMemory>
        requires covers { Covers (meaning self.old).needs lent }
        ensures ran { IfOk result (λ taken. Ran i64_values (meaning self.old) (meaning self.new)
            lent.entry taken out.old.items out.new.items) }
        // So what is given back may be taken back.
        ensures shape { IfOk result (λ taken. SameShape (taken_of lent.entry) taken) };
}

impl<S: SystemOf<Value = i64> + Send> System for S {
    ghost meaning = { S.SystemOf.meaning };

    fn access(&self) -> Access {
        SystemOf::access(self)
    }

    fn read_type(&self, op: u32) -> Option<TypeNo> {
        SystemOf::read_type(self, op)
    }

    fn refused(&self, op: u32, reply: &Reply) -> Option<Refused> {
        SystemOf::refused(self, op, reply)
    }

    fn begins(&self) -> Start {
        SystemOf::begins(self)
    }

    fn start(&mut self, counts: &Counts) {
        SystemOf::start(self, counts)
    }

    fn run(&mut self, alloc: Global, lent: Lent, out: &mut Vec<Reply>) -> Result<Taken, NoMemory> {
        SystemOf::run(self, alloc, lent, out)
    }
}

impl SystemOf for Box<dyn System> {
    type Value = i64;

    ghost use Rattle.std.specs.Prelude.{IfOk};
    ghost use Rattle.msg_world.specs.Prelude.{SameShape, i64_values, taken_of};
    ghost use Rattle.msg_system.specs.{Promises.Covers, Promises.Ran};

    ghost meaning = { λ b. (System-box b).meaning b.value };

    fn access(&self) -> Access {
        (**self).access()
    }

    fn read_type(&self, op: u32) -> Option<TypeNo> {
        (**self).read_type(op)
    }

    fn refused(&self, op: u32, reply: &Reply) -> Option<Refused> {
        (**self).refused(op, reply)
    }

    fn begins(&self) -> Start {
        (**self).begins()
    }

    fn start(&mut self, counts: &Counts) {
        (**self).start(counts)
    }

    fn run(&mut self, alloc: Global, lent: Lent, out: &mut Vec<Reply>) -> Result<Taken, NoMemory>
        requires covers { Covers ((System-box self.old).meaning self.old.value).needs lent }
        ensures ran { IfOk result
            (λ taken. Ran i64_values ((System-box self.old).meaning self.old.value)
            ((System-box self.new).meaning self.new.value)
            lent.entry taken out.old.items out.new.items) }
        ensures shape { IfOk result (λ taken. SameShape (taken_of lent.entry) taken) }
    {
        (**self).run(alloc, lent, out)
    }
}
