//! Laws: facts that hold of all systems' turns, of frames and of runs. Calling one makes its fact
//! available to the caller's proof; it does nothing at run time.
ghost use Rattle.msg_frames.specs.Prelude.{BatchesRunSideBySide, FirstIsSound, FrameStaysSound, FramesAgreeInLawfulOrders, ReplaysTellTheSame, RunStaysSound, RunsAreComplete};
ghost use Rattle.msg_frames.specs.WorkedRuns.{AsksBothEachTime, JoinsBeforePosts};

use msg_world::Value;

/// Systems of which no two conflict may take their turns side by side: each runs on what was there
/// at the start, and what it wrote is merged afterwards. The log and the state are those of one
/// turn after the other.
pub fn batches_run_side_by_side<V: Value>()
    ensures law { BatchesRunSideBySide V.values }
{}

/// In any lawful order a frame leaves the same state, and each system's turn comes out alike.
pub fn frames_agree_in_lawful_orders<V: Value>()
    ensures law { FramesAgreeInLawfulOrders V.values }
{}

/// A frame leaves a sound state sound, and so does a run of frames.
pub fn states_stay_sound<V: Value>()
    ensures frame { FrameStaysSound V.values }
    ensures run { RunStaysSound V.values }
{}

/// A state before any frame is sound, if its systems are new ones over a sound world.
pub fn first_states_are_sound<V: Value>()
    ensures law { FirstIsSound V.values }
{}

/// Every run is complete. Each type's list grew by exactly what the steps tell was written, each
/// message once, under the number that was told. From where the run found a reader to where it
/// stands at the end, its entries tell each number once, in order: those that it went past, and
/// those that it missed since they had been dropped unread. What it was given is what is there.
#[tactic(auto, using(crate::proofs::ReaderOverRun::runs_are_complete))]
pub fn runs_are_complete<V: Value>()
    ensures law { RunsAreComplete V.values }
{}

/// Logs that tell the same as those of a run tell each system what the run tells it. So frames of
/// which some are replayed tell each reader what the run of the same frames tells.
#[tactic(auto, using(crate::proofs::ReplaysTellTheSame::replays_tell))]
pub fn replays_tell_the_same<V: Value>()
    ensures law { ReplaysTellTheSame V.values }
{}

/// What two frames come to for a reader that waits for messages of two types, and for one that
/// joins late and starts at the count: worked out by hand.
pub fn worked_runs()
    ensures asks { AsksBothEachTime }
    ensures joins { JoinsBeforePosts }
{}
