// Laws: facts that hold of every op, program, condition and job, and need no code.
ghost use Rattle.msg_system.specs.Prelude.{CompleteCovers, ConditionFootprint, IsInOrder, IsWholeTurn, JobFootprint, JobsCover, OneOpIsATurn, OneOpIsCovered, OpFootprint, ProgramFootprint, TurnFootprint, TurnsAreWhole, TurnsWithinBounds, WrittenIsAll};
ghost use Rattle.msg_world.specs.Prelude.{WorldState};

use crate::{Scripted, SystemOf};
use msg_world::Value;

/// What is done depends on no part but those that are needed, and changes no part but those that
/// are written.
pub fn nothing_else_is_used<V: Value>()
    ensures ops { OpFootprint V.values }
    ensures programs { ProgramFootprint V.values }
    ensures turns { TurnFootprint V.values }
    ensures conditions { ConditionFootprint V.values }
    ensures jobs { JobFootprint V.values }
{}

/// The turn of a program is its ops in order, and the system stays that program.
#[tactic(auto, using(crate::proofs::Turns::in_order))]
pub fn a_program_is_its_ops_in_order<V: Value>()
    ensures law { IsInOrder V.values }
{}

/// Only two things cut a turn: an op outside what the system needs, and the limit of `MAX_OPS` ops.
/// So the turn of a system whose rule keeps within both is all that its rule comes to.
pub fn turns_within_bounds_are_whole<V: Value>()
    ensures law { TurnsWithinBounds V.values }
    ensures always { TurnsAreWhole V.values }
{}

/// The turn of a system that interprets a program is never cut: it is all its ops.
pub fn a_programs_turn_is_whole<V: Value>(system: &Scripted<V>)
    ensures law { (s : WorldState V.values)
        → IsWholeTurn (⟦<Scripted<V> as SystemOf>⟧.meaning system.now) s }
{}

/// One op that ran on a loan is the turn of the system whose program is that op, and a loan that
/// covers that system covers the op.
#[tactic(auto, using(crate::proofs::Turns::one_op_is_a_turn))]
pub fn one_op_is_a_turn<V: Value>()
    ensures covered { OneOpIsCovered V }
    ensures law { OneOpIsATurn V.values }
{}

/// What a run gives back stands for the world after it, if the loan owned nothing but what its
/// access writes.
pub fn what_is_given_back_stands<V: Value>()
    ensures law { WrittenIsAll V.values }
{}

/// A loan that `Lent::open` makes for an access covers whatever is within that access; for a job's
/// access, its system and its conditions.
#[tactic(auto, using(crate::proofs::LoansCover::jobs_cover))]
pub fn open_loans_cover<V: Value>()
    ensures law { CompleteCovers V }
    ensures jobs { JobsCover V }
{}
