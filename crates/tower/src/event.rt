use msg_game::Value;

/// What the parts of the game tell one another, and what the keep has left.
#[derive(Clone, Copy, Debug, PartialEq, Eq)]
pub enum Event {
    /// A creep walks, and has so many steps left to the keep.
    Walked(u32, u32),
    /// A creep is shot, and loses so much health.
    Shot(u32, u32),
    /// A creep broke in, which costs the keep so many lives.
    Broke(u32, u32),
    /// The keep has so many lives.
    Lives(u32),
}

// Who broke in costs the keep its lives.
impl Value for Event {
    ghost use Rattle.std.specs.Prelude.{refl};
    ghost use Rattle.tower.specs.Parts.{plus_event};
    ghost use Rattle.tower.specs.declared.event.Event.TheVariants.{Lives};

    ghost values = { record { some = Lives 0; plus = plus_event; same = Self.PartialEq.eq } };

    ghost same_is_eq = { refl };

    fn plus(self, other: Event) -> Event {
        match (self, other) {
            (Event::Lives(had), Event::Broke(_, lives)) => Event::Lives(had.saturating_sub(lives)),
            (kept, _) => kept,
        }
    }
}
