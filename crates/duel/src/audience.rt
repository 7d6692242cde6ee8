// Who ends a fight.
ghost use Rattle.std.specs.Prelude.{◌≡◌};
ghost use Rattle.duel.specs.Audiences.{falls_counted};

use msg_exec::{Frame, Host, Log, NoMemory, Outcome, Turn};
use msg_system::Reply;
use std::alloc::Global;

/// Watches a fight, and ends it once the referee has counted so many falls.
#[derive(Clone, Copy, Debug)]
pub struct Audience {
    pub falls: i64,
}

/// How many falls the referee has counted by the frame of this log. A rule puts it before the
/// fighters, so its turn is the first.
fn counted(log: &Log) -> i64
    ensures falls { result ≡ falls_counted log.now }
{
    let Some(
        Turn {
            outcome: Outcome::Ran(replies),
            ..
        },
    ) = log.turns.as_slice().first()
    else {
        return 0;
    };
    match replies.as_slice().first() {
        Some(Reply::Summed { value, .. }) => *value,
        _ => 0,
    }
}

impl Host for Audience {
    type Value = i64;

    ghost use Rattle.duel.specs.Audiences.{asked_for};

    ghost gives = { λ old last frame new. (new ≡ old) × (frame ≡ asked_for old last) };

    ghost refuses = { λ old last new. ⊥ };

    fn next(&mut self, alloc: Global, last: Option<&Log>) -> Result<Option<Frame>, NoMemory> {
        if let Some(log) = last {
            if counted(log) >= self.falls {
                return Ok(None);
            }
        }
        Ok(Some(Frame::quiet(alloc)))
    }
}
