//! Laws of readers: facts that hold of every run of frames.
ghost use Rattle.msg_laws.specs.Prelude as Spec;

use msg_world::Value;

/// The replies of a run's steps are those of its logs.
#[tactic(auto, using(crate::proofs::StepsAnswered::run_answered))]
pub fn logs_have_the_replies<V: Value>()
    ensures answered { Spec.AllAreAnswered V.values }
{}

/// Each message that a complete run tells of was given, or cleared, or missed: one of these, and
/// once. What is given of a writer is what the writer was told that it wrote, under that number and
/// in that order. And the entries are what the logs tell.
pub fn each_message_meets_one_fate<V: Value>()
    ensures fate { Spec.EachMeetsOneFate V.values }
    ensures writers { Spec.WritersInOrder V.values }
    ensures logs { Spec.LogsTellEntries V.values }
{}

/// The reads and clears of each reader tile over a run.
pub fn readers_tile_over_runs<V: Value>()
    ensures law { Spec.ReadersTile V.values }
{}

/// A reader's totals lead from its start to its place, and what it lost and has not read yet from
/// there to the end. One that hasn't joined has no totals.
pub fn accounts_add_up<V: Value>()
    ensures balance { Spec.AccountsBalance V.values }
    ensures backlogs { Spec.BacklogsAddUp V.values }
    ensures before_joining { Spec.NoneBeforeJoining V.values }
{}

/// From a first state on, the account of a reader counts all that its entries tell since its start,
/// whether it joined before the first frame or later.
#[tactic(auto, using(crate::proofs::ReaderLaws::accounts_begin))]
pub fn accounts_begin_at_the_start<V: Value>()
    ensures law { Spec.AccountsBeginAtTheStart V.values }
{}

/// A reader that joins with a frame is found at its start: at 0, or at the count that the frame
/// finds.
#[tactic(auto, using(crate::proofs::LateStarts::late_start))]
pub fn late_readers_start<V: Value>()
    ensures law { Spec.LateReadersStart V.values }
{}

/// A system that reads a type without limit in each frame misses nothing of it after the first of
/// these frames, unless a system drains the type. At the end of its turn it was given, or went
/// past, all that had been written when the turn began; so what is written in one frame it has by
/// the end of the next.
#[tactic(auto, using(crate::proofs::ReadersStayUpToDate::caught_up, crate::proofs::ReadersStayUpToDate::has_frame_before, crate::proofs::ReadersStayUpToDate::misses_nothing, crate::proofs::ReadersStayUpToDate::never_misses))]
pub fn who_reads_each_frame_misses_nothing<V: Value>()
    ensures catches_up { Spec.WhoReadsAllCatchesUp V.values }
    ensures frame_before { Spec.WhoReadsAllHasTheFrameBefore V.values }
    ensures up_to_date { Spec.WhoReadsAllIsUpToDate V.values }
    ensures next_frame { Spec.WhoIsUpToDateMissesNothing V.values }
    ensures law { Spec.WhoReadsEachFrameMissesNothing V.values }
{}

/// A system whose one condition is that a message of a type came, and which reads all of the type
/// if it runs, loses no wake-up. If it was skipped, nothing was unread by it as its turn came. So
/// if it is up to date, it misses nothing over a run, unless a system drains the type. One that has
/// joined in a first state over a world without messages of the type begins so.
pub fn no_wake_up_is_lost<V: Value>()
    ensures begins { Spec.WhoBeginsIsWoken V.values }
    ensures sleeps { Spec.WhoSleepsHasNothingUnread V.values }
    ensures woken { Spec.WhoIsWokenStaysSo V.values }
    ensures law { Spec.NoWakeUpIsLost V.values }
{}

/// What a system is told that it wrote in a frame, a reader that comes after it in the settled
/// order, and reads all, takes in that frame; any reader that has joined by the end of the frame,
/// and reads all in the next one, takes it by the end of that. What the host posts in a frame, any
/// reader that reads all in it takes by its end. It is missed only if the type is drained.
pub fn what_is_written_is_read_in_time<V: Value>()
    ensures at_once { Spec.LaterReadersHaveItAtOnce V.values }
    ensures next { Spec.AllReadersHaveItNext V.values }
    ensures posts { Spec.PostsAreTakenAtOnce V.values }
{}

/// A system each turn of which begins with ops of which one reads a type without limit does so if it
/// runs; if it has joined and has no conditions, in each frame. Programs begin so, and so do
/// functions, which read all their parts first (`a_function_reads_first` of `msg_function`).
pub fn who_begins_reading_all_reads_all<V: Value>()
    ensures law { Spec.WhoBeginsReadingAll V.values }
    ensures woken { Spec.WhoBeginsReadingAllWhenWoken V.values }
{}

/// A system whose program of at most `MAX_OPS` ops reads a type without limit does so if it runs;
/// if it has joined and has no conditions, in each frame.
pub fn programs_read_all<V: Value>()
    ensures law { Spec.WhoseProgramReadsAll V.values }
    ensures woken { Spec.WhoseProgramReadsAllWhenWoken V.values }
{}
