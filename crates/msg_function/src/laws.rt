// Laws of the turns of a function's system. They need no code.
ghost use Rattle.std.specs.Prelude.{◌+◌, ◌≤◌, ℕ, Bool, List, length, map};
ghost use Rattle.msg_world.specs.Prelude.{WorldState};
ghost use Rattle.msg_system.specs.{Prelude.BeginsTurnsWith, Prelude.Meaning, Prelude.after_program, declared.limits.TheConstants.MAX_OPS, declared.op.Op.Op, declared.start.Start.Start};
ghost use Rattle.msg_function.specs.{declared.port.Port.Port, Functions.AnswerIsWritten, Functions.IsGivenTheWorld, Functions.Kept, Functions.TurnIsWhole, Functions.given_by, Functions.of_function, Functions.read_op};

use crate::Function;
use msg_world::Value;

/// The turn of a function's system is never cut, neither by its access nor by the limit of ops: it
/// is all that the system reads, and then all that the function answers to that. Then the system is
/// again one of that function, with the memory that came of that, and knows which of its answers
/// were refused; so no later turn is cut either.
#[tactic(auto, using(crate::proofs::FunctionTurns::is_whole))]
pub fn a_functions_turn_is_whole<
    T: Function<READS, WRITES>,
    const READS: usize,
    const WRITES: usize,
>()
    ensures law { (reads writes : List Port) (kept : Kept T) (start : Start) (writer : ℕ)
        (places : ℕ → ℕ) (last : List (Op T.Value)) (s : WorldState T.Value.values)
        → length reads + length writes ≤ MAX_OPS
        → TurnIsWhole T.answers reads writes kept
        (of_function T.answers reads writes kept start writer places last) s }
{}

/// Each turn of a function's system begins by reading all parts that it reads, whatever it is told.
/// So it reads all of each type in each frame in which it runs, and what holds of such readers
/// holds of it (`who_begins_reading_all_reads_all` of `msg_laws`).
pub fn a_function_reads_first<T: Function<READS, WRITES>, const READS: usize, const WRITES: usize>()
    ensures law { (reads writes : List Port) (kept : Kept T) (start : Start) (writer : ℕ)
        (places : ℕ → ℕ) (last : List (Op T.Value))
        → length reads + length writes ≤ MAX_OPS
        → BeginsTurnsWith (map read_op reads)
        (of_function T.answers reads writes kept start writer places last) }
{}

/// A function is given its world as its turn finds it: its answer is made of what `given_by` makes of
/// the replies to what it reads, and that is the world's. If two of its ports are one type, only the
/// first is given the messages.
pub fn a_function_is_given_its_world<V: Value>()
    ensures law { (reads : List Port) (refused : List Bool) (m : Meaning V)
        (s : WorldState V.values)
        → IsGivenTheWorld reads m s
        (given_by refused (after_program (map read_op reads) m.writer m.places s).replies) }
{}

/// What a function answers is in the world after its turn: of a resource the last of its values, and
/// of a type all its messages, in order, behind those that were there. If too few numbers of the
/// type are left, none of them is, and the function is told so. All else is as it was. If two ports
/// are one part, this says nothing of what is answered to them.
#[tactic(auto, using(crate::proofs::WrittenWorld::answer_written))]
pub fn a_functions_answer_is_written<
    T: Function<READS, WRITES>,
    const READS: usize,
    const WRITES: usize,
>()
    ensures law { (reads writes : List Port) (kept : Kept T) (start : Start) (writer : ℕ)
        (places : ℕ → ℕ) (last : List (Op T.Value)) (s : WorldState T.Value.values)
        → length reads + length writes ≤ MAX_OPS
        → AnswerIsWritten T.answers reads writes kept
        (of_function T.answers reads writes kept start writer places last) s }
{}
