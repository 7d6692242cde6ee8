ghost use Rattle.std.specs.Prelude.{◌≡◌, ◌<◌, ◌↔◌, IsSome, IfSome};

use crate::limits::MAX_TYPES;
use std::marker::Model;

/// The number of a message type, by order of addition. A world has at most `MAX_TYPES` types.
#[derive(Clone, Copy, Debug, PartialEq, Eq)]
pub struct TypeNo {
    number: u32,
}

impl Model for TypeNo {
    ghost use Rattle.std.specs.Prelude.{ℕ, ◌<◌};
    ghost use Rattle.msg_world.specs.declared.limits.TheConstants.{MAX_TYPES};

    ghost Value = { ℕ };

    ghost view = { λ t. t.number };

    ghost invariant = { λ t. t.number < MAX_TYPES };

    ghost inverse = { λ n. record { number = n } };
}

impl TypeNo {
    /// The type with this number; None if it is `MAX_TYPES` or more.
    pub fn new(number: u32) -> Option<Self>
        ensures valid { IsSome result ↔ (number < MAX_TYPES) }
        ensures value { IfSome result (λ t. t ≡ number) }
    {
        if number < MAX_TYPES as u32 {
            Some(TypeNo { number })
        } else {
            None
        }
    }

    /// The type with this number, which is known to be one.
    ///
    /// ```
    /// let hits = TypeNo::of(1);
    /// ```
    pub fn of(number: u32) -> Self
        requires valid { number < MAX_TYPES }
        ensures value { result ≡ number }
    {
        TypeNo { number }
    }

    /// Its number, from 0 on.
    pub fn number(self) -> u32
        ensures number { result ≡ self }
        ensures within { self < MAX_TYPES }
    {
        self.number
    }
}
