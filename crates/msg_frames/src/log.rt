ghost use Rattle.std.specs.Prelude.{◌≡◌, [], count_by, unwrap_or};
ghost use Rattle.std.specs.Option.{option_copied};
ghost use Rattle.msg_system.specs.Prelude.{is_spent};
ghost use Rattle.msg_frames.specs.Logs.{cut_of, read_in, turn_in, turn_replies};

use crate::Items;
use msg_system::{Reply, brought};
use msg_world::Record;

/// What came of a system's turn: nothing, if one of its conditions didn't hold, or its replies,
/// one for each op. If the turn was cut, one more tells before which op, and why.
#[derive(Debug, PartialEq, Eq, Drop)]
pub enum Outcome<V = i64> {
    Skipped,
    Ran(Items<Reply<V>>),
}

/// One system's turn in a frame.
#[derive(Debug, PartialEq, Eq, Drop)]
pub struct Turn<V = i64> {
    pub system: u32,
    pub outcome: Outcome<V>,
}

/// What happened in a frame: what the host's posts were answered, and the turns, in their order.
#[derive(Debug, PartialEq, Eq, Drop)]
pub struct Log<V = i64> {
    pub posts: Items<Reply<V>>,
    pub turns: Items<Turn<V>>,
}

impl<V> Turn<V> {
    /// Its replies; None if it was skipped.
    pub fn replies(&self) -> Option<&[Reply<V>]>
        ensures replies { option_copied result ≡ turn_replies self.now }
    {
        match &self.outcome {
            Outcome::Skipped => None,
            Outcome::Ran(replies) => Some(replies.as_slice()),
        }
    }

    /// The reply that tells before which op the turn was cut, and why; None if it ended of itself.
    pub fn cut(&self) -> Option<&Reply<V>>
        ensures cut { option_copied result ≡ cut_of self.now }
    {
        let last = self.replies()?.last()?;
        last.is_cut().then_some(last)
    }

    /// How many of its writes were refused, each whole, since too few numbers of the type were
    /// left.
    ///
    /// ```
    /// if turn.spent() > 0 {
    ///     println!(rt; "system {} wrote less than it answered", turn.system)?;
    /// }
    /// ```
    pub fn spent(&self) -> usize
        ensures spent { result ≡ count_by is_spent (unwrap_or (turn_replies self.now) []) }
    {
        let replies = self.replies().unwrap_or(&[]);
        replies.iter().filter(|reply| reply.is_spent()).count()
    }
}

impl<V> Log<V> {
    /// The turn of the system with this number; None if it hadn't joined.
    ///
    /// ```
    /// let shot = log.turn_of(tower).and_then(|turn| turn.replies());
    /// ```
    pub fn turn_of(&self, system: u32) -> Option<&Turn<V>>
        ensures turn { option_copied result ≡ turn_in system self.now }
    {
        self.turns
            .as_slice()
            .iter()
            .find(|turn| turn.system == system)
    }

    /// The messages that a system read in this frame by its op number `k`: of a function by part `k`
    /// of those that it reads. There are none if it was skipped or hadn't joined, or if that op
    /// reads none.
    ///
    /// ```
    /// let sold = log.read_by(cashier, 0).iter().any(|sale| sale.value > 100);
    /// ```
    pub fn read_by(&self, system: u32, k: usize) -> &[Record<V>]
        ensures read { result.now ≡ read_in system k self.now }
    {
        match self.turn_of(system).and_then(|turn| turn.replies()) {
            Some(replies) => brought(replies, k),
            None => &[],
        }
    }
}
