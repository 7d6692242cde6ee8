ghost use Rattle.std.specs.Prelude.{◌≡◌, slice_get};
ghost use Rattle.std.specs.Option.{option_copied};
ghost use Rattle.msg_system.specs.Prelude.{brought, is_cut, is_spent, reply_took};

use crate::{Items, Op};
use msg_buffer::Written;
use msg_world::{Record, TypeNo};

/// What a read took: the messages from the number `first` on, and how many it had missed.
#[derive(Debug, PartialEq, Eq, Drop)]
pub struct Took<V = i64> {
    pub missed: u64,
    pub first: u64,
    pub items: Items<Record<V>>,
}

/// What an op didn't write, since too few numbers of the type were left: so many messages.
#[derive(Clone, Copy, Debug, PartialEq, Eq)]
pub struct Refused {
    pub of_type: TypeNo,
    pub n: u64,
}

/// What an op answers.
#[derive(Debug, PartialEq, Eq, Drop)]
pub enum Reply<V = i64> {
    /// The numbers that the messages of a write got.
    Wrote(Written),
    /// A write that was refused whole: too few numbers are left.
    Spent,
    /// What a read took.
    Read(Took<V>),
    /// How many messages are unread.
    Len(u64),
    /// How many messages were missed.
    Missed(u64),
    /// The cursor missed some messages, and went past `n` from the number `first` on.
    Cleared {
        missed: u64,
        first: u64,
        n: u64,
    },
    /// What was read, and the numbers that it got; None if too few were left.
    Forwarded {
        took: Took<V>,
        wrote: Option<Written>,
    },
    /// What was read, and the resource's value after it.
    Summed {
        took: Took<V>,
        value: V,
    },
    /// A resource's value after the op.
    Value(V),
    /// The messages that were dropped, from the number `first` on.
    Drained {
        first: u64,
        items: Items<Record<V>>,
    },
    /// An update was asked for.
    Signalled,
    /// The turn was cut before this op, which is outside of what its system may use.
    Outside(Op<V>),
    /// The turn was cut before this op, since it had as many as a turn may have (`MAX_OPS`).
    Full(Op<V>),
}

impl<V> Reply<V> {
    /// Whether it tells that the turn was cut.
    pub fn is_cut(&self) -> bool
        ensures cut { result ≡ is_cut self.now }
    {
        matches!(self, Reply::Outside(_) | Reply::Full(_))
    }

    /// Whether it tells that messages weren't written, since too few numbers of their type were
    /// left.
    pub fn is_spent(&self) -> bool
        ensures spent { result ≡ is_spent self.now }
    {
        matches!(self, Reply::Spent | Reply::Forwarded { wrote: None, .. })
    }

    /// What its op took, if that read messages.
    pub fn took(&self) -> Option<&Took<V>>
        ensures took { option_copied result ≡ reply_took self.now }
    {
        match self {
            Reply::Read(took) => Some(took),
            Reply::Forwarded { took, .. } => Some(took),
            Reply::Summed { took, .. } => Some(took),
            _ => None,
        }
    }
}

/// The messages that the op of reply `k` read. There are none if it read none, or if there is
/// no such reply.
#[tactic(auto, using(std::proofs::lemmas::Grind::elements))]
pub fn brought<V>(replies: &[Reply<V>], k: usize) -> &[Record<V>]
    ensures brought { result.now ≡ brought (slice_get replies.now k) }
{
    let Some(reply) = replies.get(k) else {
        return &[];
    };
    match reply.took() {
        Some(took) => took.items.as_slice(),
        None => &[],
    }
}
