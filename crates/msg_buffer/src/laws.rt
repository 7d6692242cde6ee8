//! Laws: facts that hold of every history, and of every read that is left.
ghost use Rattle.std.specs.Prelude.{◌≡◌, Some};
ghost use Rattle.msg_buffer.specs.Prelude.{ClearsFit, ClearsLeaveNone, History, OnlyGrows, OutliveOneUpdate, ReadsFit, ReadsUpTo, RunsTile, StandsFor, next_place, read};

use crate::cursor::MessageCursor;
use crate::messages::Messages;
use std::alloc::Allocator;

/// No change takes anything out of a history or moves it.
pub fn histories_only_grow<M>()
    ensures grows { OnlyGrows M }
{}

/// After an update those messages are present that were current before it, and no others. After one
/// more update none is present.
pub fn messages_outlive_one_update<M>()
    ensures outlive { OutliveOneUpdate M }
{}

/// A clear or a drain of the messages leaves none present, and none that a reader can still be
/// given.
pub fn clears_leave_none<M>()
    ensures none { ClearsLeaveNone M }
{}

/// The reads and clears of one reader tile its history: each fits the place that the one before it
/// led to.
#[tactic(auto, using(crate::proofs::Tiles::reads_fit, crate::proofs::Tiles::reads_up_to, crate::proofs::Tiles::clears_fit, crate::proofs::Tiles::runs_tile))]
pub fn readers_tile<M>()
    ensures reads { ReadsFit M }
    ensures up_to { ReadsUpTo M }
    ensures clears { ClearsFit M }
    ensures runs { RunsTile M }
{}

/// A read that is left after so many messages, or at its end, is a read with that limit: what it
/// didn't give stays unread.
pub fn reads_may_be_left<M, A: Allocator>(
    cursor: &mut MessageCursor,
    messages: &Messages<M, A>,
    taken: u64,
)
    ensures place { (h : History M) → StandsFor messages.now h
        → cursor.new ≡ next_place (read h cursor.old (Some taken)) }
{
    let mut unread = cursor.read(messages);
    for _ in 0..taken {
        if unread.next().is_none() {
            break;
        }
    }
}
