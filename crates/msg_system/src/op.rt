ghost use Rattle.std.specs.Prelude.{◌≡◌, ◌≢◌, ◌||◌, ◌<◌, ℕ, List, Some, IfOk, OnErr, OnOk, length};
ghost use Rattle.msg_world.specs.{declared.part.Part.Part as PartView, declared.part.Part.TheVariants.Registry, Prelude.reads, Prelude.writes};

use crate::op_parts::OpParts;
use crate::{Access, Cursors, Items, NoMemory, Refused, Reply, steps};
use msg_world::{Lent, Part, ResNo, TypeNo, Value};
use std::alloc::Global;

/// One step of a program. All reading ops of one type in a program share one place.
#[derive(Debug, PartialEq, Eq, Drop)]
pub enum Op<V = i64> {
    /// Writes one message.
    Write(TypeNo, V),
    /// Writes all values, or none.
    Batch(TypeNo, Items<V>),
    /// Reads at most so many unread messages, or all.
    Read(TypeNo, Option<u64>),
    /// How many messages are unread.
    Len(TypeNo),
    /// How many messages were missed.
    Missed(TypeNo),
    /// Goes past all messages.
    Clear(TypeNo),
    /// Reads all unread messages of the first type, and writes their values to the second as one
    /// batch. If that is refused for the limit, what was read stays read.
    Forward(TypeNo, TypeNo),
    /// Reads all unread messages, and adds their values to a resource one by one, as `Value::plus`
    /// says: sums of `i64` are held within its range.
    Sum(TypeNo, ResNo),
    /// Answers with the value of a resource.
    Get(ResNo),
    /// Gives a resource this value, and answers with it.
    Set(ResNo, V),
    /// Adds to a resource, as `Value::plus` says.
    Add(ResNo, V),
    /// Drops all messages, and answers with them.
    Drain(TypeNo),
    /// Asks for an update of a held world.
    Signal,
}

impl<V: Value> Op<V> {
    ghost use Rattle.msg_world.specs.Prelude.{SameLoan};
    ghost use Rattle.msg_system.specs.{Needs.keeps_to, Needs.needs_of, Needs.op_needs, Needs.type_read, Needs.type_written, Programs.op_parts, Programs.refused_by, OpRuns.MayBeRefused, OpRuns.OpRan, OpRuns.cursor_places, Promises.Covers};

    /// The part that it reads, and the part that it writes.
    fn parts(&self) -> OpParts
        ensures parts { result ≡ op_parts self.now }
        ensures signals { result.read ≢ Some Registry }
    {
        let (read, written) = match self {
            Op::Write(t, _) | Op::Batch(t, _) | Op::Drain(t) => (None, Some(Part::OfType(*t))),
            Op::Read(t, _) | Op::Len(t) | Op::Missed(t) | Op::Clear(t) => {
                (Some(Part::OfType(*t)), None)
            }
            Op::Forward(t, u) => (Some(Part::OfType(*t)), Some(Part::OfType(*u))),
            Op::Sum(t, r) => (Some(Part::OfType(*t)), Some(Part::OfResource(*r))),
            Op::Get(r) => (Some(Part::OfResource(*r)), None),
            Op::Set(r, _) | Op::Add(r, _) => (None, Some(Part::OfResource(*r))),
            Op::Signal => (None, Some(Part::Registry)),
        };
        OpParts { read, written }
    }

    /// The type that it reads.
    pub fn read_type(&self) -> Option<TypeNo>
        ensures type_read { result ≡ type_read self.now }
    {
        let parts = self.parts();
        match &parts.read {
            Some(Part::OfType(t)) => Some(*t),
            _ => None,
        }
    }

    /// The type that it writes, or drops the messages of.
    pub fn write_type(&self) -> Option<TypeNo>
        ensures type_written { result ≡ type_written self.now }
    {
        let parts = self.parts();
        match &parts.written {
            Some(Part::OfType(t)) => Some(*t),
            _ => None,
        }
    }

    /// What it didn't write, if it was answered so.
    pub fn refused(&self, reply: &Reply<V>) -> Option<Refused>
        ensures refused { result ≡ refused_by self.now reply.now }
    {
        let (of_type, n) = match (self, reply) {
            (Op::Write(t, _), Reply::Spent) => (*t, 1),
            (Op::Batch(t, values), Reply::Spent) => (*t, values.as_slice().len() as u64),
            (Op::Forward(_, t), Reply::Forwarded { took, wrote: None }) => {
                (*t, took.items.as_slice().len() as u64)
            }
            _ => return None,
        };
        Some(Refused { of_type, n })
    }

    /// Whether it reads and writes no more than this access.
    pub fn keeps_to(&self, access: &Access) -> bool
        ensures keeps { result ≡ keeps_to (needs_of access.now) self.now }
    {
        self.parts().are_in(access)
    }

    /// An access with what this op uses beside.
    pub(crate) fn added_to(&self, access: Access) -> Access
        ensures reads { (p : PartView)
            → reads result p ≡ ((op_needs self.now).reads p || reads access p) }
        ensures writes { (p : PartView)
            → writes result p ≡ ((op_needs self.now).writes p || writes access p) }
    {
        self.parts().added_to(access)
    }

    /// Does this op on a loan that covers it, for the system that has these cursors and writes as
    /// the number `writer`. A refusal leaves the loan and the cursors as they were.
    pub fn run(
        &self,
        alloc: Global,
        writer: u32,
        cursors: &mut Cursors,
        lent: &mut Lent<V>,
    ) -> Result<Reply<V>, NoMemory>
        requires covers { Covers (op_needs self.now) lent.old }
        ensures ran { IfOk result (OpRan V.values self.now writer (cursor_places cursors.old)
            (cursor_places cursors.new) lent.old lent.new) }
        ensures same { OnOk result (SameLoan lent.old lent.new) }
        ensures refused { OnErr result
            (MayBeRefused V.values self.now (cursor_places cursors.old) lent.old) }
        ensures err { OnErr result (lent.new ≡ lent.old) }
        ensures err_cursors { OnErr result (cursors.new ≡ cursors.old) }
    {
        match self {
            Op::Write(t, value) => steps::write(lent, writer, *t, *value),
            Op::Batch(t, values) => steps::batch(lent, writer, *t, values),
            Op::Read(t, limit) => {
                let list = lent.empty_list(alloc);
                let cursor = &mut cursors.by_type[t.number() as usize];
                steps::read(list, lent, *t, *limit, cursor)
            }
            Op::Len(t) => Ok(steps::len(lent, *t, &cursors.by_type[t.number() as usize])),
            Op::Missed(t) => Ok(steps::missed(lent, *t, &cursors.by_type[t.number() as usize])),
            Op::Clear(t) => Ok(steps::clear(lent, *t, &mut cursors.by_type[t.number() as usize])),
            Op::Forward(t, u) => {
                let list = lent.empty_list(alloc);
                let cursor = &mut cursors.by_type[t.number() as usize];
                steps::forward(list, lent, writer, *t, *u, cursor)
            }
            Op::Sum(t, r) => {
                let list = lent.empty_list(alloc);
                let cursor = &mut cursors.by_type[t.number() as usize];
                steps::sum(list, lent, *t, *r, cursor)
            }
            Op::Get(r) => Ok(steps::get(lent, *r)),
            Op::Set(r, value) => Ok(steps::set(lent, *r, *value)),
            Op::Add(r, value) => Ok(steps::add(lent, *r, *value)),
            Op::Drain(t) => {
                let list = lent.empty_list(alloc);
                steps::drain(list, lent, *t)
            }
            Op::Signal => Ok(steps::signal(lent)),
        }
    }

    /// A copy of the op. Only the values of a batch take memory.
    pub fn copy(&self, alloc: Global) -> Result<Op<V>, NoMemory>
        ensures equal { IfOk result (λ op. op ≡ self.now) }
        ensures refused { OnErr result
            ((t : ℕ) × (values : List V) × (self.now ≡ Op.Batch t values) × (0 < length values)) }
    {
        Ok(match self {
            Op::Write(t, value) => Op::Write(*t, *value),
            Op::Batch(t, values) => Op::Batch(*t, values.copy(alloc)?),
            Op::Read(t, limit) => Op::Read(*t, *limit),
            Op::Len(t) => Op::Len(*t),
            Op::Missed(t) => Op::Missed(*t),
            Op::Clear(t) => Op::Clear(*t),
            Op::Forward(t, u) => Op::Forward(*t, *u),
            Op::Sum(t, r) => Op::Sum(*t, *r),
            Op::Get(r) => Op::Get(*r),
            Op::Set(r, value) => Op::Set(*r, *value),
            Op::Add(r, value) => Op::Add(*r, *value),
            Op::Drain(t) => Op::Drain(*t),
            Op::Signal => Op::Signal,
        })
    }
}
