ghost use Rattle.std.specs.Prelude.{◌≡◌, ◌<◌, ◌≤◌, All, IfOk, IsSome, OnOk, length};
ghost use Rattle.msg_world.specs.Prelude.{writable};
ghost use Rattle.msg_system.specs.Prelude.{refused_in};

use crate::identity::Identity;
use crate::refusals::{is_refused, op_count, refused_of};
use crate::turn::write_list;
use crate::{NoMemory, Port};
use msg_system::{Refused, Reply};
use msg_world::{Lent, Value};
use std::alloc::Global;

/// What a system answers in a turn: values for each of the `WRITES` parts that it may write, in the
/// order in which it was made with them. What is answered to a part that it wasn't made with isn't
/// written.
#[derive(Drop)]
pub struct Outbox<V, const WRITES: usize> {
    pub(crate) lists: Vec<Vec<V>>,
    ghost one_each: { length lists.items ≡ WRITES },
}

impl<V: Value, const WRITES: usize> Outbox<V, WRITES> {
    ghost use Rattle.msg_function.specs.{Functions.answered, Functions.nothing, Functions.part_of, Functions.put, Functions.put_all, Functions.refused_parts, Functions.written_ops, inner.Runs.OpsRan};

    /// Nothing is answered yet.
    pub(crate) fn new(alloc: Global) -> Result<Outbox<V, WRITES>, NoMemory>
        ensures nothing { IfOk result (λ o. answered o ≡ nothing) }
    {
        let mut lists = Vec::with_capacity(alloc, WRITES)?;
        for _ in 0..WRITES {
            lists.push(Vec::new(alloc))?;
        }
        Ok(Outbox { lists })
    }

    /// Forgets what was answered.
    pub(crate) fn clear(&mut self)
        ensures nothing { answered self.new ≡ nothing }
    {
        for k in 0..self.lists.len() {
            self.lists[k].clear();
        }
    }

    /// Writes what was answered to these parts.
    #[inline(always)]
    pub(crate) fn write_lists(
        &mut self,
        alloc: Global,
        ports: &[Port],
        me: &mut Identity,
        lent: &mut Lent<V>,
        out: &mut Vec<Reply<V>>,
    ) -> Result<(), NoMemory>
        requires within { length ports.now ≤ WRITES }
        requires written { All (λ port. IsSome (writable (part_of port) lent.old)) ports.now }
        ensures ran { OnOk result (OpsRan V.values (written_ops ports.now (answered self.old))
            me.old me.new lent.old lent.new out.old.items out.new.items) }
        ensures stays { OnOk result (answered self.new ≡ answered self.old) }
    {
        for k in 0..ports.len() {
            write_list(alloc, ports[k], &mut self.lists[k], me, lent, out)?;
        }
        Ok(())
    }

    /// Notes of each part whether what was answered to it was refused, by the replies to that.
    pub(crate) fn note_refused(&self, ports: &[Port], replies: &[Reply<V>], refused: &mut [bool])
        requires within { length ports.now ≤ WRITES }
        requires one_each { length refused.old ≡ length ports.now }
        ensures noted { refused.new
            ≡ refused_parts ports.now (answered self.now) replies.now }
    {
        let mut written = 0;
        for k in 0..ports.len() {
            let values = self.lists[k].as_slice();
            refused[k] = is_refused(values, replies, written);
            written += op_count(values);
        }
    }

    /// What write number `place` of a turn didn't write, if it was answered so.
    pub(crate) fn refused_at(
        &self,
        ports: &[Port],
        place: usize,
        reply: &Reply<V>,
    ) -> Option<Refused>
        requires within { length ports.now ≤ WRITES }
        ensures refused { result
            ≡ refused_in (written_ops ports.now (answered self.now)) place reply.now }
    {
        let mut before = place;
        for k in 0..ports.len() {
            let values = self.lists[k].as_slice();
            let count = op_count(values);
            if before < count {
                return refused_of(ports[k], values.len() as u64, reply);
            }
            before -= count;
        }
        None
    }

    /// Writes one more message to part `k`. If that is a resource, this is its value; the last one
    /// stays.
    pub fn write(&mut self, k: usize, value: V) -> Result<(), NoMemory>
        requires there { k < WRITES }
        ensures put { OnOk result (answered self.new ≡ put k value (answered self.old)) }
    {
        self.lists[k].push(value)?;
        Ok(())
    }

    /// Writes these messages to part `k`.
    pub fn write_all(&mut self, k: usize, values: &[V]) -> Result<(), NoMemory>
        requires there { k < WRITES }
        ensures put { OnOk result (answered self.new ≡ put_all k values.now (answered self.old)) }
    {
        self.lists[k].extend_from_slice(values)?;
        Ok(())
    }
}
