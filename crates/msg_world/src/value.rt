/// What the messages and resources of a world hold: `i64`, or a type of a game's own. Such a type
/// is `Copy` and has `==`, by which `Probe::ResourceEquals` compares, and its author says what a sum
/// of two values is, which `Op::Sum` and `Op::Add` make. No law is asked of that: whatever it is,
/// contracts say what the author says.
///
/// One takes ten lines: in `specs/` what a sum is, and beside the type the same in code (most `use`
/// lines are left out):
///
/// ```
/// // specs/Hits.antt: of two hits the later stays
/// abbrev pub plus_hit : Hit → Hit → Hit
/// plus_hit hit other = other
///
/// // src/hit.rt
/// #[derive(Clone, Copy, Debug, PartialEq, Eq)]
/// pub struct Hit { pub on: u32 }
///
/// impl Value for Hit {
///     ghost use Rattle.std.specs.Prelude.{refl};
///     ghost use Rattle.game.specs.Hits.{plus_hit};
///     ghost values = { record { some = record { on = 0 }; plus = plus_hit; same = Self.PartialEq.eq } };
///     ghost same_is_eq = { refl };
///     fn plus(self, other: Hit) -> Hit { other }
/// }
/// ```
///
/// `crates/tower` has a whole game with such a type. An engine asks that its values may be sent to
/// threads and shared by them, as plain data may.
pub trait Value: Copy + PartialEq {
    ghost use Rattle.std.specs.Prelude.{◌≡◌};
    ghost use Rattle.msg_world.specs.World.{Values};

    // What contracts know of the type.
    ghost values: { Values Self };

    /// What an op that adds makes of a value and the one that is added to it.
    fn plus(self, other: Self) -> Self
        ensures sum { result ≡ values.plus self other };

    // A condition compares by `==`.
    ghost same_is_eq: { values.same ≡ Self.PartialEq.eq };
}

// A sum is held within the range of `i64`.
impl Value for i64 {
    ghost use Rattle.std.specs.Prelude.{refl};
    ghost use Rattle.msg_world.specs.World.{i64_values};

    ghost values = { i64_values };

    ghost same_is_eq = { refl };

    fn plus(self, other: i64) -> i64 {
        self.saturating_add(other)
    }
}
