ghost use Rattle.std.specs.Prelude.{◌≡◌, ◌<◌, ◌≤◌};

use crate::limits::MAX_WORKERS;
use std::marker::Model;

/// How many workers may run the jobs of a batch: from 1 to `MAX_WORKERS`. Contracts see it
/// as the number.
#[derive(Clone, Copy, Debug, PartialEq, Eq)]
pub struct Workers {
    number: u32,
}

impl Model for Workers {
    ghost use Rattle.std.specs.Prelude.{ℕ, ◌<◌, ◌≤◌};
    ghost use Rattle.msg_workers.specs.declared.limits.TheConstants.{MAX_WORKERS};

    ghost Value = { ℕ };

    ghost view = { λ w. w.number };

    ghost inverse = { λ number. record { number = number } };

    ghost invariant = { λ w. (0 < w.number) × (w.number ≤ MAX_WORKERS) };
}

impl Workers {
    ghost use Rattle.std.specs.Prelude.{◌↔◌, IsSome, IfSome};

    /// None for 0 and for more than `MAX_WORKERS`.
    pub fn new(number: u32) -> Option<Workers>
        ensures some { IsSome result ↔ ((0 < number) × (number ≤ MAX_WORKERS)) }
        ensures number { IfSome result (λ workers. workers ≡ number) }
    {
        if 0 < number && number <= MAX_WORKERS {
            Some(Workers { number })
        } else {
            None
        }
    }

    /// How many they are.
    pub fn number(&self) -> u32
        ensures number { result ≡ self.now }
        ensures some { 0 < result }
        ensures at_most { result ≤ MAX_WORKERS }
    {
        self.number
    }
}
