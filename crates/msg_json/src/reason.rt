ghost use Rattle.std.specs.Prelude.{◌≡◌};
ghost use Rattle.msg_json.specs.Faults.{reason_refusal};

use crate::location::Key;
use crate::refusal::Refusal;

/// Why a JSON value is refused: what is wanted in place of what stands there.
#[derive(Clone, Copy, Debug, PartialEq, Eq)]
pub enum Reason {
    /// An object is wanted.
    Object,
    /// An object has a key that isn't known there.
    UnknownKey,
    /// An object lacks this key.
    Missing(Key),
    /// A list is wanted.
    List,
    /// A text is wanted.
    Text,
    /// A number is wanted.
    Number,
    /// A list of numbers is wanted.
    Numbers,
    /// `true` or `false` is wanted.
    Truth,
    /// A list has another head, or other parts, than is wanted there.
    Parts,
    /// A list has more elements than this, or there are more cursors or `not`s.
    AtMost(usize),
    /// A whole number within the range of `i64` is wanted.
    Whole,
    /// A whole number from 0 is wanted.
    Natural,
    /// A whole number from 0 to below this one is wanted.
    Below(u32),
    /// The number of a frame to join with is wanted.
    Join,
    /// A name has a character or a length that names don't have, or is the host's.
    BadName,
    /// The name stands already at this number of its list.
    StandsAt(usize),
    /// No type has this name.
    NoType,
    /// No resource has this name.
    NoResource,
    /// No system has this name.
    NoSystem,
    /// The kind of a system is wanted.
    Kind,
    /// The ops aren't those of the system's kind.
    NotOfKind,
    /// Where cursors start is wanted.
    Start,
    /// The program of this system, the lowest such, reads and writes one type.
    Clash(u32),
    /// The rules lead from this system, the lowest such, back to it.
    Cycle(u32),
    /// A growth was refused.
    NoMemory,
}

impl Reason {
    /// The refusal of a file for this reason.
    pub fn refusal(self) -> Refusal
        ensures refusal { result ≡ reason_refusal self }
    {
        match self {
            Reason::Object
            | Reason::Missing(_)
            | Reason::List
            | Reason::Text
            | Reason::Number
            | Reason::Numbers
            | Reason::Truth
            | Reason::Parts
            | Reason::Kind
            | Reason::NotOfKind
            | Reason::Start => Refusal::Shape,
            Reason::UnknownKey => Refusal::UnknownKey,
            Reason::BadName => Refusal::BadName,
            Reason::StandsAt(_) => Refusal::TwiceNamed,
            Reason::Whole | Reason::Natural | Reason::Below(_) | Reason::Join => Refusal::BadNumber,
            Reason::AtMost(_) => Refusal::TooMany,
            Reason::NoType | Reason::NoResource | Reason::NoSystem => Refusal::UnknownName,
            Reason::Clash(system) => Refusal::Clash(system),
            Reason::Cycle(system) => Refusal::Cycle(system),
            Reason::NoMemory => Refusal::NoMemory,
        }
    }
}
