// Systems, and the parts of the world that they write, go out for turns and come home.
ghost use Rattle.std.specs.Prelude.{◌≡◌, ◌<◌, ◌∷◌, [], IfOk, OnOk};
ghost use Rattle.msg_frames.specs.Prelude.{State};
ghost use Rattle.msg_exec.specs.{Prelude.LenderStands, inner.Batches.HasTurned};

use crate::job::{GuardedSystem, Job, JobContents, take_turn};
use crate::spares::Spares;
use crate::totals::enter_turn;
use crate::{NoMemory, Outcome, Totals, Turn};
use msg_system::SystemOf;
use msg_world::{Access, Taken, Value, World};
use std::alloc::Global;
use std::mem::replace;

/// What lends out systems, and the parts of the world that they write.
#[derive(Drop)]
pub struct Lender<S, V = i64> {
    pub world: World<V>,
    /// Each system with its conditions, by number; None while it is out for its turn.
    pub systems: Vec<Option<Box<GuardedSystem<S, V>>>>,
    /// What each system and its conditions read and write.
    pub accesses: Vec<Access>,
    /// For each system its totals, one for each type.
    pub totals: Vec<Vec<Totals>>,
}

impl<V: Value, S: SystemOf<Value = V>> Lender<S, V> {
    ghost use Rattle.std.specs.Prelude.{IsSome, length};
    ghost use Rattle.msg_world.specs.Prelude.{IsApart, IsHome};
    ghost use Rattle.msg_order.specs.Prelude.{access_of};
    ghost use Rattle.msg_exec.specs.{inner.Totals.HasFewReplies, Lender.system_at, inner.SystemsOut.ComesHome, inner.SystemsOut.GoesOut};

    /// Takes a system out for its turn, with what its access writes.
    pub(crate) fn lend_out(
        &mut self,
        number: u32,
        contents: Box<JobContents<V>>,
    ) -> Result<Job<S, V>, NoMemory>
        requires number { number < length self.old.accesses.items }
        requires there { IsSome (system_at self.old number) }
        requires home { IsHome (access_of self.old.accesses.items number) self.old.world }
        requires empty { contents.value.replies.items ≡ [] }
        ensures out { IfOk result (λ job. GoesOut self.old number job self.new) }
    {
        let i = number as usize;
        let mut contents = contents;
        contents.number = number;
        contents.access = self.accesses[i];
        let Some(guarded) = self.systems[i].take() else {
            unreachable!()
        };
        contents.taken = self.world.lend_out(&contents.access)?;
        Ok(Job { guarded, contents })
    }

    /// Takes a system back after its turn, with what it gives back. What went with it is kept for
    /// later jobs.
    pub(crate) fn take_back(&mut self, done: Job<S, V>, spares: &mut Spares<V>) -> Turn<V>
        requires systems { done.number < length self.old.systems.items }
        requires totals { done.number < length self.old.totals.items }
        requires apart { IsApart done.taken self.old.world }
        requires few { HasFewReplies done.outcome }
        ensures home { ComesHome S.meaning self.old done self.new }
        ensures turn { result ≡ record { system = done.number; outcome = done.outcome } }
    {
        let Job {
            guarded,
            mut contents,
        } = done;
        let number = contents.number;
        let i = number as usize;
        let taken = replace(&mut contents.taken, Taken::none());
        let outcome = replace(&mut contents.outcome, Outcome::Skipped);
        spares.keep_contents(contents);
        self.world.take_back(taken);
        enter_turn(&guarded.system, i, &mut self.totals, &outcome);
        self.systems[i] = Some(guarded);
        Turn {
            system: number,
            outcome,
        }
    }
}

/// One system's turn, in place. It is appended to those before it.
pub(crate) fn run_turn<V: Value, S: SystemOf<Value = V>>(
    alloc: Global,
    lender: &mut Lender<S, V>,
    number: u32,
    spares: &mut Spares<V>,
    turns: &mut Vec<Turn<V>>,
) -> Result<(), NoMemory>
    requires stands { (s : State V.values)
        × (LenderStands S.meaning lender.old s × (number < s.systems)) }
    ensures turned { OnOk result ((s : State V.values) → LenderStands S.meaning lender.old s
        → HasTurned S.meaning (number ∷ []) s lender.new turns.old.items turns.new.items) }
    ensures accesses { OnOk result (lender.new.accesses.items ≡ lender.old.accesses.items) }
{
    let i = number as usize;
    let access = &lender.accesses[i];
    let taken = lender.world.lend_out(access)?;
    let mut replies = spares.replies(alloc);
    let Some(guarded) = &mut lender.systems[i] else {
        unreachable!()
    };
    let guarded = &mut **guarded;
    let world = &lender.world;
    let (taken, ran) = take_turn(alloc, guarded, world, access, taken, &mut replies)?;
    lender.world.take_back(taken);
    let outcome = spares.outcome_if(ran, replies);
    enter_turn(&guarded.system, i, &mut lender.totals, &outcome);
    turns.push(Turn {
        system: number,
        outcome,
    })?;
    Ok(())
}
