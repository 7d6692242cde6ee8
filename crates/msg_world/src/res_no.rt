ghost use Rattle.std.specs.Prelude.{◌≡◌, ◌<◌, ◌↔◌, IsSome, IfSome};

use crate::limits::MAX_RESOURCES;
use std::marker::Model;

/// The number of a resource, by order of addition. A world has at most
/// `MAX_RESOURCES` of them.
#[derive(Clone, Copy, Debug, PartialEq, Eq)]
pub struct ResNo {
    number: u32,
}

impl Model for ResNo {
    ghost use Rattle.std.specs.Prelude.{ℕ, ◌<◌};
    ghost use Rattle.msg_world.specs.declared.limits.TheConstants.{MAX_RESOURCES};

    ghost Value = { ℕ };

    ghost view = { λ r. r.number };

    ghost invariant = { λ r. r.number < MAX_RESOURCES };

    ghost inverse = { λ n. record { number = n } };
}

impl ResNo {
    /// The resource with this number; None if it is `MAX_RESOURCES` or more.
    pub fn new(number: u32) -> Option<Self>
        ensures valid { IsSome result ↔ (number < MAX_RESOURCES) }
        ensures value { IfSome result (λ r. r ≡ number) }
    {
        if number < MAX_RESOURCES as u32 {
            Some(ResNo { number })
        } else {
            None
        }
    }

    /// The resource with this number, which is known to be one.
    ///
    /// ```
    /// let gold = ResNo::of(1);
    /// ```
    pub fn of(number: u32) -> Self
        requires valid { number < MAX_RESOURCES }
        ensures value { result ≡ number }
    {
        ResNo { number }
    }

    /// Its number, from 0 on.
    pub fn number(self) -> u32
        ensures number { result ≡ self }
        ensures within { self < MAX_RESOURCES }
    {
        self.number
    }
}
