//! Laws of turns and frames. Calling one makes its fact available to the caller's proof; it does
//! nothing at run time.
ghost use Rattle.msg_frames.specs.Prelude.{FramesKeepSystems};
ghost use Rattle.msg_laws.specs.Prelude.{DrainsTakeAll, FramesRunByBatches, LawfulOrdersAgree, ListsOnlyGrow, ObserversDisturbNobody, ObserversMayBeAdded, OpsAreRefusedPastLimits, OrderIsSettled, RunsCompose, SameSystemsHaveSameAccesses, SystemsAreRefusedPastLimits, TurnsAreInOrder, TurnsKeepSystems, TurnsOfOthersCommute};

use msg_buffer::laws::histories_only_grow;
use msg_world::{Record, Value};

/// Turns keep the systems: what they need, where they start, their conditions, and the rules of
/// their order. Only what they do next, places, accounts and the world change.
#[tactic(auto, using(msg_frames::proofs::SystemsStay::turns_keep))]
pub fn turns_keep_the_systems<V: Value>()
    ensures law { TurnsKeepSystems V.values }
{}

/// Frames keep the systems too.
pub fn frames_keep_the_systems<V: Value>()
    ensures law { FramesKeepSystems V.values }
{}

/// A drain takes all messages of a type, and leaves none that a reader can still be given.
pub fn drains_take_all<V: Value>()
    ensures law { DrainsTakeAll V.values }
{}

/// The same systems have the same accesses, and after as many frames the same of them have joined.
#[tactic(auto, using(msg_frames::proofs::SystemsStay::accesses_stay, msg_frames::proofs::SystemsStay::joined_stay))]
pub fn same_systems_have_same_accesses<V: Value>()
    ensures law { SameSystemsHaveSameAccesses V.values }
{}

/// Of two systems whose accesses don't conflict, the turn of one doesn't change what comes of the
/// other's, and it doesn't matter which is first.
pub fn turns_of_others_commute<V: Value>()
    ensures law { TurnsOfOthersCommute V.values }
{}

/// Batch after batch, each side by side, gives what one turn after the other gives.
#[tactic(auto, using(crate::proofs::OrderOfTurns::batch_by_batch))]
pub fn frames_run_by_batches<V: Value>()
    ensures law { FramesRunByBatches V.values }
{}

/// Two lawful orders of the same turns leave the same state, and each system's turn comes out
/// alike.
pub fn lawful_orders_agree<V: Value>()
    ensures law { LawfulOrdersAgree V.values }
{}

/// The order of a state's systems is the settled one. If the rules make no cycle, it has none, it
/// orders those in conflict, the batches are by the longest chain, and each system that has joined
/// has its turn once.
pub fn turns_are_in_settled_order<V: Value>()
    ensures turns { TurnsAreInOrder V.values }
    ensures settled { OrderIsSettled V.values }
{}

/// Over a run each type's list of messages only grows.
#[tactic(auto, using(crate::proofs::ReadersStayUpToDate::runs_go_on))]
pub fn lists_only_grow<V: Value>()
    ensures law { ListsOnlyGrow V.values }
{
    histories_only_grow::<Record<V>>();
}

/// While the numbers of a type last, no write to it is refused. What an op or a post of a run was
/// refused, whatever system's op it was, would be past the type's limit as the run ends too; and so
/// would all that a system was refused, as its account tells it. So a type with the limit `u64::MAX`,
/// as `World::unlimited` makes them, refuses a message only if as many are written by the end of that
/// frame, and a batch only if fewer are left then than it has.
#[tactic(auto, using(crate::proofs::Refusals::run_past, crate::proofs::Refusals::system_past))]
pub fn no_write_is_refused_while_numbers_last<V: Value>()
    ensures ops { OpsAreRefusedPastLimits V.values }
    ensures systems { SystemsAreRefusedPastLimits V.values }
{}

/// Calls in a row are one run: frames, and then more of them from the state that these leave.
#[tactic(auto, using(msg_frames::proofs::Functions::run_append))]
pub fn runs_compose<V: Value>()
    ensures law { RunsCompose V.values }
{}

/// A last system that writes nothing, and that no rule puts before another, changes nothing for the
/// others: with it and without it they take the same turns in the same order, are answered the
/// same, and leave the same world.
pub fn observers_disturb_nobody<V: Value>()
    ensures added { ObserversMayBeAdded V.values }
    ensures law { ObserversDisturbNobody V.values }
{}
