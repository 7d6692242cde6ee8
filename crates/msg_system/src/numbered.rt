// Systems that take their number.
use crate::SystemOf;

/// A system that can be told the number that it writes as, so that a builder of engines gives each
/// its own.
pub trait Numbered: SystemOf {
    ghost use Rattle.std.specs.Prelude.{◌≡◌};

    /// From now on it writes as this number, and has read nothing. All else stays.
    fn set_number(&mut self, number: u32)
        ensures numbered { Self.meaning self.new
            ≡ record (Self.meaning self.old) { writer = number; places = λ t. 0 } };
}
