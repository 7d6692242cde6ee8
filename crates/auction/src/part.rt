ghost use Rattle.std.specs.Prelude.{◌≡◌};
ghost use Rattle.auction.specs.House.{price_of};

use crate::event::Event::{self, *};
use msg_game::{Function, Inbox, NoMemory, Outbox, added_up};

/// Who does something in an auction house, and what it remembers.
#[derive(Clone, Copy)]
pub enum Part {
    /// Calls the price, and sells or passes the lot after two frames without a better bid.
    Auctioneer(Event, u32),
    /// Bids one more than the price, as far as its purse and its limit go.
    Bidder(Event, u32),
    /// Takes a tenth of each sale.
    Cashier,
    /// Counts down the lots.
    Porter,
    /// Tells of each record.
    Press(Event),
}

/// The price that an event tells of.
fn price_of(event: Event) -> u32
    ensures price { result ≡ price_of event }
{
    match event {
        Called(_, price, _) => price,
        Record(price) => price,
        _ => 0,
    }
}

impl Function<3, 3> for Part {
    type Value = Event;

    ghost use Rattle.auction.specs.House.{answers_of};

    ghost answers = { answers_of };

    fn answer(
        &mut self,
        inbox: &Inbox<Event>,
        outbox: &mut Outbox<Event, 3>,
    ) -> Result<(), NoMemory> {
        match *self {
            Part::Auctioneer(before, quiet) => {
                let call = added_up(added_up(before, inbox.read(0)), inbox.read(1));
                let quiet = if price_of(call) == price_of(before) {
                    quiet.saturating_add(1)
                } else {
                    0
                };
                *self = Part::Auctioneer(call, quiet);
                match call {
                    Called(_, _, _) if quiet < 2 => outbox.write(0, call),
                    Called(lot, price, leader) => {
                        *self = Part::Auctioneer(Passed(lot), quiet);
                        if leader == 0 {
                            outbox.write(2, Passed(lot))
                        } else {
                            outbox.write(1, Sold(lot, leader, price))
                        }
                    }
                    _ => Ok(()),
                }
            }
            Part::Bidder(purse, limit) => {
                let purse = added_up(purse, inbox.read(1));
                *self = Part::Bidder(purse, limit);
                match (purse, added_up(Passed(0), inbox.read(0))) {
                    (Purse(who, left), Called(_, price, leader))
                        if leader != who && price < limit && price < left => {
                        outbox.write(0, Bid(who, price + 1))
                    }
                    _ => Ok(()),
                }
            }
            Part::Cashier => match inbox.value(1) {
                Some(till) => outbox.write(0, added_up(till, inbox.read(0))),
                None => Ok(()),
            },
            Part::Porter => match inbox.value(2) {
                Some(lots) => outbox.write(
                    0,
                    added_up(added_up(lots, inbox.read(0)), inbox.read(1)),
                ),
                None => Ok(()),
            },
            Part::Press(before) => {
                let best = added_up(before, inbox.read(0));
                *self = Part::Press(best);
                if price_of(best) == price_of(before) {
                    Ok(())
                } else {
                    outbox.write(0, best)
                }
            }
        }
    }
}
