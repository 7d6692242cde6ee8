// One system's job: its conditions and its system, on a loan of what its access uses.
ghost use Rattle.std.specs.Prelude.{◌≡◌, [], IfOk};
ghost use Rattle.msg_world.specs.Prelude.{IsLoanOf};
ghost use Rattle.msg_system.specs.Prelude.{IsAccessOf};
ghost use Rattle.msg_exec.specs.Jobs.{HasTakenTurn, outcome_if, guarded_needs};

use crate::{NoMemory, Outcome};
use msg_system::{Guard, Reply, SystemOf};
use msg_world::{Access, Lent, Taken, Value, World};
use std::alloc::Global;
use std::marker::Model;

/// A system with its conditions.
#[derive(Drop)]
pub struct GuardedSystem<S, V = i64> {
    pub system: S,
    pub guards: Vec<Guard<V>>,
}

/// Takes the turn of a system on parts that were lent to it: asks its conditions, and runs it if
/// they hold. Gives back what was lent, and whether it ran. Replies go into the empty list.
#[inline(always)]
pub(crate) fn take_turn<V: Value, S: SystemOf<Value = V>>(
    alloc: Global,
    guarded: &mut GuardedSystem<S, V>,
    world: &World<V>,
    access: &Access,
    taken: Taken<V>,
    replies: &mut Vec<Reply<V>>,
) -> Result<(Taken<V>, bool), NoMemory>
    requires empty { replies.old.items ≡ [] }

    // What was lent from the world is what it needs.
    requires loan { IsLoanOf access.now world.now taken }
    requires access { IsAccessOf (guarded_needs S.meaning guarded.old) access.now }
    ensures took { IfOk result (λ r. HasTakenTurn V.values S.meaning world.now taken guarded.old r.0
        (outcome_if r.1 replies.new.items) guarded.new) }
{
    let lent = Lent::open(world, access, taken);
    if !Guard::check_all(&mut guarded.guards, &lent) {
        return Ok((lent.into_taken(), false));
    }
    let taken = guarded.system.run(alloc, lent, replies)?;
    Ok((taken, true))
}

/// What goes with a system to its turn, and comes home with it. It is kept, and serves later jobs.
#[derive(Drop)]
pub struct JobContents<V = i64> {
    /// The number of the system.
    pub number: u32,
    /// What the system and its conditions read and write.
    pub access: Access,
    /// What is lent to it in writing; after its turn, what it gives back.
    pub taken: Taken<V>,
    /// An empty list for its replies.
    pub replies: Vec<Reply<V>>,
    /// What came of the job, after its turn.
    pub outcome: Outcome<V>,
}

/// A system that is out for its turn. It is in a box, and so is what goes with it, so that little
/// is moved where a job goes from list to list and over the board. Contracts see a `JobView`.
#[derive(Drop)]
pub struct Job<S, V = i64> {
    pub(crate) guarded: Box<GuardedSystem<S, V>>,
    pub(crate) contents: Box<JobContents<V>>,
}

impl<S, V> Model for Job<S, V> {
    ghost use Rattle.msg_exec.specs.Jobs.{JobView};

    ghost Value = { JobView S V };

    ghost view = { λ j. record {
      number = j.contents.value.number;
      guarded = j.guarded.value;
      access = j.contents.value.access;
      taken = j.contents.value.taken;
      replies = j.contents.value.replies.items;
      outcome = j.contents.value.outcome;
    } };
}

impl<S, V> Job<S, V> {
    /// The number of its system.
    pub(crate) fn number(&self) -> u32
        ensures number { result ≡ self.now.number }
    {
        self.contents.number
    }
}
