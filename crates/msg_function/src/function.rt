// What answers in the turn of a system.
use crate::{Inbox, NoMemory, Outbox};
use msg_world::Value;

/// A system as one function: it is given all that came of the `READS` parts that it reads, and
/// answers once, to the `WRITES` parts that it writes. What it is to remember stands in its own
/// fields. `FunctionSystem` makes a system of it, and says which parts these are.
///
/// Whoever implements it says by one ghost equation what it makes of itself and of what it is
/// given, and proves nothing about ops, access, worlds or frames.
///
/// ```
/// /// What a doorbell reads and writes.
/// const VISITORS: usize = 0;
/// const RINGS: usize = 0;
///
/// /// Rings once if somebody came.
/// impl Function<1, 1> for Doorbell {
///     type Value = i64;
///
///     ghost answers = { λ bell given.
///         (bell, if nat_lt 0 (length (given.messages VISITORS)) then put RINGS (pos 1) nothing else nothing) };
///
///     fn answer(&mut self, inbox: &Inbox<i64>, outbox: &mut Outbox<i64, 1>) -> Result<(), NoMemory> {
///         if !inbox.read(VISITORS).is_empty() {
///             outbox.write(RINGS, 1)?;
///         }
///         Ok(())
///     }
/// }
///
/// // Where it is added it is said which parts these are:
/// let bell = FunctionSystem::new(alloc, Doorbell, [Port::Messages(visitors)], [Port::Messages(rings)])?;
/// game.add_system(bell, Vec::new(alloc), 1)?;
/// ```
pub trait Function<const READS: usize, const WRITES: usize>: Drop {
    /// What the messages and resources of its world hold.
    type Value: Value;

    ghost use Rattle.std.specs.Prelude.{◌≡◌, OnOk};
    ghost use Rattle.msg_function.specs.Functions.{Answer, Given, answered, given, nothing, parts, written_parts};

    // What it is after a turn in which it was given this, and what it answers.
    ghost answers: { Self → Given Self.Value → Self × Answer Self.Value };

    /// Answers what it was given, in its turn. It isn't called in a turn that its conditions skip.
    fn answer(
        &mut self,
        inbox: &Inbox<Self::Value>,
        outbox: &mut Outbox<Self::Value, WRITES>,
    ) -> Result<(), NoMemory>
        requires parts { parts inbox.now ≡ READS }
        requires written_parts { written_parts inbox.now ≡ WRITES }
        requires empty { answered outbox.old ≡ nothing }
        ensures answers { OnOk result
            ((self.new, answered outbox.new) ≡ answers self.old (given inbox.now)) };
}
