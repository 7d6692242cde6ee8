ghost use Rattle.std.specs.Prelude.{◌≡◌, ◌<◌};

use msg_system::{Reply, brought};
use msg_world::{Record, Value};

/// What a system is given in a turn: what came of each part that it reads, and which parts that it
/// writes were refused, each in the order in which it was made with them. If it was made with fewer
/// parts than its function may read, those that are absent have no messages and no value.
#[derive(Clone, Copy)]
pub struct Inbox<'a, V> {
    pub(crate) replies: &'a [Reply<V>],
    pub(crate) refused: &'a [bool],
    pub(crate) parts: usize,
    pub(crate) written_parts: usize,
}

impl<'a, V: Value> Inbox<'a, V> {
    ghost use Rattle.msg_function.specs.Functions.{given, parts, written_parts};

    /// The messages of part `k` that it hadn't read yet. There are none if that is a resource.
    pub fn read(&self, k: usize) -> &[Record<V>]
        requires there { k < parts self.now }
        ensures messages { result.now ≡ (given self.now).messages k }
    {
        brought(self.replies, k)
    }

    /// How many messages of part `k` it missed since it last read.
    pub fn missed(&self, k: usize) -> u64
        requires there { k < parts self.now }
        ensures missed { result ≡ (given self.now).missed k }
    {
        match self.replies.get(k) {
            Some(Reply::Read(took)) => took.missed,
            _ => 0,
        }
    }

    /// The value of part `k`. None if that is a type.
    pub fn value(&self, k: usize) -> Option<V>
        requires there { k < parts self.now }
        ensures value { result ≡ (given self.now).value k }
    {
        match self.replies.get(k) {
            Some(Reply::Value(value)) => Some(*value),
            _ => None,
        }
    }

    /// Whether what was answered in its last turn to part `k`, of those that it writes, was refused
    /// whole: too few numbers of the type were left, so none of these messages was written. False
    /// of a resource, and in its first turn. True of an absent part: what is answered to it isn't
    /// written.
    pub fn spent(&self, k: usize) -> bool
        requires there { k < written_parts self.now }
        ensures spent { result ≡ (given self.now).spent k }
    {
        self.refused.get(k).copied().unwrap_or(true)
    }
}
