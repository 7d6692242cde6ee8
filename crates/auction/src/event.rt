use msg_game::Value;

/// All that happens in an auction house, and what its parts remember.
#[derive(Clone, Copy, Debug, PartialEq, Eq)]
pub enum Event {
    /// A lot, and its reserve.
    Opened(u32, u32),
    /// Who bids, and how much.
    Bid(u32, u32),
    /// A lot, its price, and who offers it; 0 is nobody.
    Called(u32, u32, u32),
    /// A lot, who has it now, and for how much.
    Sold(u32, u32, u32),
    /// A lot that nobody bought.
    Passed(u32),
    /// The highest price so far.
    Record(u32),
    /// A bidder, and what it has left.
    Purse(u32, u32),
    /// What the house earned.
    Till(u32),
    /// How many lots are left.
    Lots(u32),
}

use Event::*;

// What comes of the left after the right happened.
impl Value for Event {
    ghost use Rattle.std.specs.Prelude.{refl};
    ghost use Rattle.auction.specs.House.{plus_event};
    ghost use Rattle.auction.specs.declared.event.Event.TheVariants.{Lots};

    ghost values = { record { some = Lots 0; plus = plus_event; same = Self.PartialEq.eq } };

    ghost same_is_eq = { refl };

    fn plus(self, other: Event) -> Event {
        match (self, other) {
            (_, Opened(lot, reserve)) => Called(lot, reserve, 0),
            (Called(lot, price, _), Bid(who, amount)) if amount > price => Called(lot, amount, who),
            (Passed(_), Called(lot, price, leader)) => Called(lot, price, leader),
            (Called(_, _, _), Called(lot, price, leader)) => Called(lot, price, leader),
            (Record(best), Sold(_, _, price)) if best < price => Record(price),
            (Purse(who, left), Sold(_, to, price)) if to == who => Purse(
                who,
                left.saturating_sub(price),
            ),
            (Till(had), Sold(_, _, price)) => Till(had.saturating_add(price / 10)),
            (Lots(n), Sold(_, _, _)) => Lots(n.saturating_sub(1)),
            (Lots(n), Passed(_)) => Lots(n.saturating_sub(1)),
            (kept, _) => kept,
        }
    }
}
