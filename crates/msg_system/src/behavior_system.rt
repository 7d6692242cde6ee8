// Systems that decide by a behavior.
ghost use Rattle.std.specs.Prelude.{◌≡◌, ◌<◌, ◌≤◌, ◌++◌, IfOk, OnOk, drop, length, option_map, option_to_list};
ghost use Rattle.msg_world.specs.Prelude.{SameLoan};
ghost use Rattle.msg_system.specs.{Behaviors.behaves, Needs.needs_of, OpRuns.cursor_places, inner.TurnRuns.IsOver, inner.TurnRuns.TurnRan, Promises.Covers, Systems.next_done, Systems.refusal};

use crate::behavior::Behavior;
use crate::limits::MAX_OPS;
use crate::one_op::answer;
use crate::{Access, Cursors, Items, NoMemory, Numbered, Op, Refused, Reply, Start, SystemOf};
use msg_world::{Counts, Lent, Taken, TypeNo, Value};
use std::alloc::Global;
use std::mem::replace;

/// The replies from number `from` on.
fn since<V>(replies: &[Reply<V>], from: usize) -> &[Reply<V>]
    requires within { from ≤ length replies.now }
    ensures rest { result.now ≡ drop from replies.now }
{
    &replies[from..]
}

/// Tells that a turn is cut before this op, if there is one; `from` replies are of earlier turns.
fn tell_cut<V: Value>(
    from: usize,
    op: Option<Op<V>>,
    out: &mut Vec<Reply<V>>,
) -> Result<(), NoMemory>
    requires within { from ≤ length out.old.items }
    ensures cut { OnOk result (out.new.items ≡ out.old.items
        ++ option_to_list (option_map (refusal (drop from out.old.items)) op)) }
{
    if let Some(op) = op {
        let is_full = out.len() - from >= MAX_OPS;
        out.push(if is_full {
            Reply::Full(op)
        } else {
            Reply::Outside(op)
        })?;
    }
    Ok(())
}

/// A system that does what its behavior decides.
#[derive(Drop)]
pub struct BehaviorSystem<B: Behavior> {
    behavior: B,
    access: Access,
    start: Start,
    writer: u32,
    cursors: Cursors,
    last: Items<Op<B::Value>>,
}

impl<B: Behavior + Send> BehaviorSystem<B> {
    ghost use Rattle.msg_system.specs.Behaviors.{new_by_rule};

    /// It has done nothing yet. It does no op outside `access`, and writes as the number `writer`.
    pub fn new(
        alloc: Global,
        behavior: B,
        access: Access,
        start: Start,
        writer: u32,
    ) -> BehaviorSystem<B>
        ensures new { ⟦<BehaviorSystem<B> as SystemOf>⟧.meaning result ≡ new_by_rule
            (needs_of access) start writer (behaves B.next_op B.remembered (B.memory behavior)) }
    {
        BehaviorSystem {
            behavior,
            access,
            start,
            writer,
            cursors: Cursors::new(),
            last: Items::from_vec(Vec::new(alloc)),
        }
    }
}

impl<B: Behavior> BehaviorSystem<B> {
    /// Does the ops that the behavior gives, one after the other. It returns those that it did, in
    /// the memory of those of its last turn, and the op that comes next and isn't done.
    #[inline(always)]
    fn run_ops(
        &mut self,
        alloc: Global,
        lent: &mut Lent<B::Value>,
        out: &mut Vec<Reply<B::Value>>,
    ) -> Result<(Vec<Op<B::Value>>, Option<Op<B::Value>>), NoMemory>
        requires covers { Covers (needs_of self.old.access) lent.old }
        ensures ran { OnOk result (TurnRan B.Value.values
            (next_done (needs_of self.old.access) (B.next_op (B.memory self.old.behavior)))
            self.old.writer (cursor_places self.old.cursors) (cursor_places self.new.cursors)
            lent.old lent.new out.old.items out.new.items) }
        ensures over { IfOk result (λ did. IsOver (needs_of self.old.access)
            (B.next_op (B.memory self.old.behavior)) did.0.items did.1
            out.old.items out.new.items) }
        ensures same { OnOk result (SameLoan lent.old lent.new) }
        ensures stays { OnOk result
            (self.new ≡ record self.old { cursors = self.new.cursors; last = self.new.last }) }
    {
        let before = out.len();
        let mut ops = replace(&mut self.last, Items::from_vec(Vec::new(alloc))).into_vec();
        ops.clear();
        let (behavior, access, writer) = (&self.behavior, &self.access, self.writer);
        let cursors = &mut self.cursors;
        'turn: loop {
            match behavior.next(alloc, since(out.as_slice(), before))? {
                Some(op) if ops.len() < MAX_OPS && op.keeps_to(access) => {
                    out.reserve(1)?;
                    answer(alloc, &op, writer, cursors, lent, out)?;
                    ops.push(op)?;
                }
                left => return Ok((ops, left)),
            }
        }
    }
}

impl<B: Behavior + Send> SystemOf for BehaviorSystem<B> {
    type Value = B::Value;

    ghost use Rattle.std.specs.Prelude.{IfOk};
    ghost use Rattle.msg_world.specs.Prelude.{SameShape, taken_of};
    ghost use Rattle.msg_system.specs.{Promises.Covers, Promises.Ran};

    ghost meaning = { λ s. record {
      needs = needs_of s.access;
      start = s.start;
      writer = s.writer;
      places = cursor_places s.cursors;
      rule = behaves B.next_op B.remembered (B.memory s.behavior);
      last = s.last;
    } };

    fn access(&self) -> Access {
        self.access
    }

    fn read_type(&self, op: u32) -> Option<TypeNo> {
        self.last.as_slice().get(op as usize)?.read_type()
    }

    fn refused(&self, op: u32, reply: &Reply<B::Value>) -> Option<Refused> {
        self.last.as_slice().get(op as usize)?.refused(reply)
    }

    fn begins(&self) -> Start {
        self.start
    }

    fn start(&mut self, counts: &Counts) {
        self.cursors.start(self.access, self.start, counts);
    }

    #[inline(always)]
    fn run(
        &mut self,
        alloc: Global,
        mut lent: Lent<B::Value>,
        out: &mut Vec<Reply<B::Value>>,
    ) -> Result<Taken<B::Value>, NoMemory>
        requires covers { Covers (⟦<BehaviorSystem<B> as SystemOf>⟧.meaning self.old).needs lent }
        ensures ran { IfOk result
            (λ taken. Ran B.Value.values (⟦<BehaviorSystem<B> as SystemOf>⟧.meaning self.old)
            (⟦<BehaviorSystem<B> as SystemOf>⟧.meaning self.new)
            lent.entry taken out.old.items out.new.items) }
        ensures shape { IfOk result (λ taken. SameShape (taken_of lent.entry) taken) }
    {
        let before = out.len();
        let (ops, next) = self.run_ops(alloc, &mut lent, out)?;
        self.last = Items::from_vec(ops);
        tell_cut(before, next, out)?;
        self.behavior
            .remember(alloc, since(out.as_slice(), before))?;
        Ok(lent.into_taken())
    }
}

impl<B: Behavior + Send> Numbered for BehaviorSystem<B> {
    fn set_number(&mut self, number: u32) {
        self.writer = number;
        self.cursors = Cursors::new();
    }
}
