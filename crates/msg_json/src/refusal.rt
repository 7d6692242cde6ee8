ghost use Rattle.std.specs.Prelude.{◌≡◌};
ghost use Rattle.msg_json.specs.declared.refusal.Refusal.TheVariants.{NoMemory as NoRoom};

use msg_buffer::NoMemory;
use std::alloc::AllocFailed;
use thiserror::Error;

/// Why a file was refused. The line that `msgrun` prints has the number and the name; the line for
/// want of memory has neither.
#[derive(Clone, Copy, Debug, PartialEq, Eq, Error)]
pub enum Refusal {
    /// The bytes are no JSON text.
    #[error("1 NotJson")]
    NotJson,
    /// Something has another kind or length than is wanted there.
    #[error("2 Shape")]
    Shape,
    /// An object has a key that isn't known there.
    #[error("3 UnknownKey")]
    UnknownKey,
    /// A name has a character or a length that names don't have, or is the host's.
    #[error("4 BadName")]
    BadName,
    /// Two types, two resources or two systems have one name.
    #[error("5 TwiceNamed")]
    TwiceNamed,
    /// A number is no whole number, or isn't in its range.
    #[error("6 BadNumber")]
    BadNumber,
    /// A list is longer than it may be, or there are too many cursors or `not`s.
    #[error("7 TooMany")]
    TooMany,
    /// No type, resource or system has this name.
    #[error("8 UnknownName")]
    UnknownName,
    /// The lowest system whose program reads and writes one type.
    #[error("9 Clash({0})")]
    Clash(u32),
    /// The lowest system on a cycle of rules.
    #[error("10 Cycle({0})")]
    Cycle(u32),
    /// A growth was refused.
    #[error("11 NoMemory")]
    NoMemory,
}

impl From<NoMemory> for Refusal {
    ghost from_gives = { λ _ refusal. refusal ≡ NoRoom };

    fn from(_error: NoMemory) -> Self {
        Refusal::NoMemory
    }
}

impl<T: Drop> From<AllocFailed<T>> for Refusal {
    ghost from_gives = { λ _ refusal. refusal ≡ NoRoom };

    fn from(_error: AllocFailed<T>) -> Self {
        Refusal::NoMemory
    }
}
