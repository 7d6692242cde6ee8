// What decides the ops of a system.
use crate::{Access, NoMemory, Op, Reply, Start};
use msg_world::Value;
use std::alloc::Global;

/// Decides what a system does, by a memory of its own and by the replies to its ops.
///
/// `BehaviorSystem` makes a system of it. Whoever implements it says by its ghost equations what
/// each call does, and proves nothing about loans, worlds or frames. `crates/duel/src/role.rt` has
/// a longer example, with the `ghost use` lines that bring in the names of such equations.
///
/// ```
/// /// Answers each message of a type by one to another.
/// impl Behavior for Echo {
///     type Value = i64;
///
///     ghost Memory = { Echo };
///
///     ghost memory = { λ e. e };
///
///     ghost next_op = { λ e replies.
///         if length replies == 0 then Some (Forward e.from e.to) else None };
///
///     ghost remembered = { λ e replies. e };
///
///     fn next(&self, _alloc: Global, replies: &[Reply]) -> Result<Option<Op>, NoMemory> {
///         Ok((replies.len() == 0).then_some(Op::Forward(self.from, self.to)))
///     }
///
///     fn remember(&mut self, _alloc: Global, _replies: &[Reply]) -> Result<(), NoMemory> {
///         Ok(())
///     }
/// }
/// ```
pub trait Behavior: Drop {
    /// What the messages and resources of its world hold.
    type Value: Value;

    ghost use Rattle.std.specs.Prelude.{◌≡◌, List, Option, IfOk, OnOk};
    ghost use Rattle.msg_system.specs.{declared.op.Op.Op, declared.reply.Reply.Reply};

    // The type of what it remembers.
    ghost Memory: { Type 0 };

    // What it remembers now.
    ghost memory: { Self → Memory };

    // The next op of a turn, by what it remembers and the replies so far; None ends the turn.
    ghost next_op: { Memory → List (Reply Self.Value) → Option (Op Self.Value) };

    // What it remembers after a turn that was answered so.
    ghost remembered: { Memory → List (Reply Self.Value) → Memory };

    /// The next op of this turn, by the replies so far; None if the turn is over. An op past
    /// `MAX_OPS`, or outside the access of its system, isn't done: it ends the turn, whose last
    /// reply is then `Full` or `Outside`. If no op is outside the access, and there is none after
    /// `MAX_OPS` replies, no turn is cut (`turns_within_bounds_are_whole`).
    fn next(
        &self,
        alloc: Global,
        replies: &[Reply<Self::Value>],
    ) -> Result<Option<Op<Self::Value>>, NoMemory>
        ensures next { IfOk result (λ op. op ≡ next_op (memory self.now) replies.now) };

    /// Remembers what later turns need of this one, by its replies. A turn that is skipped isn't
    /// told.
    fn remember(&mut self, alloc: Global, replies: &[Reply<Self::Value>]) -> Result<(), NoMemory>
        ensures remembers { OnOk result
            (memory self.new ≡ remembered (memory self.old) replies.now) };
}
