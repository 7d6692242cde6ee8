ghost use Rattle.std.specs.Prelude.{◌≡◌, ◌<◌, ◌++◌, ◌∷◌, [], length, slice_get};

use crate::TypeNo;
use crate::limits::MAX_TYPES;
use std::marker::Model;

/// How many messages of each type were ever written.
#[derive(Drop)]
pub struct Counts {
    counts: [u64; MAX_TYPES],
    types: usize,
}

impl Model for Counts {
    ghost use Rattle.std.specs.Prelude.{ℕ, ◌≤◌, List, take};
    ghost use Rattle.msg_world.specs.declared.limits.TheConstants.{MAX_TYPES};

    ghost Value = { List ℕ };

    ghost view = { λ c. take c.types c.counts };

    ghost invariant = { λ c. c.types ≤ MAX_TYPES };
}

impl Counts {
    /// The counts of a world without types.
    pub(crate) fn none() -> Counts
        ensures none { length result ≡ 0 }
    {
        Counts {
            counts: [0; MAX_TYPES],
            types: 0,
        }
    }

    /// Adds the count of one more type, which gets the next number.
    pub(crate) fn push(&mut self, count: u64)
        requires room { length self.old < MAX_TYPES }
        ensures pushed { self.new ≡ self.old ++ count ∷ [] }
    {
        self.counts[self.types] = count;
        self.types += 1;
    }

    /// How many messages of this type were ever written; None if there is no such type.
    pub fn of(&self, t: TypeNo) -> Option<u64>
        ensures count { result ≡ slice_get self.now t }
    {
        self.counts[..self.types].get(t.number() as usize).copied()
    }
}
