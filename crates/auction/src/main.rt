//! An auction house: three bidders, of whom one comes late, and what else such a house needs.
#![tactic(auto)]

mod event;
mod house;
mod part;

use event::Event::{self, *};
use house::House;
use msg_game::{Condition, FunctionSystem, Game, ResNo, Workers, resources, systems, types};
use part::Part::{self, *};

/// Adds all parts of the house, and gives what opens its lots.
fn add_all(game: &mut Game<FunctionSystem<Part, 3, 3>, Event>) -> anyhow::Result<House> {
    types! { game; opened, bids, calls, sales, passes, records }
    resources! { game; till: Till(0), lots: Lots(5) }
    let open = Condition::resource_equals(lots, Lots(0)).not();
    let sold = Condition::on_message(sales);
    systems! { game;
        auctioneer: Auctioneer(Passed(0), 0), [opened, bids] -> [calls, sales, passes];
        ann: Bidder(Purse(1, 60), 25), [calls, sales] -> [bids] if open;
        ben: Bidder(Purse(2, 60), 20), [calls, sales] -> [bids] if open;
        cis: Bidder(Purse(3, 60), 40), [calls, sales] -> [bids] if open, join 12;
        cashier: Cashier, [sales, till] -> [till] if sold;
        porter: Porter, [sales, passes, lots] -> [lots];
        press: Press(Record(0)), [sales] -> [records];
    }
    Ok(House {
        porter,
        opened,
        lots: 5,
    })
}

fn main(rt: HostRuntime) -> anyhow::Result<()> {
    let mut game = Game::new(rt.alloc());
    let mut house = add_all(&mut game)?;
    let (mut engine, names) = game.build()?;
    engine.run_loop(&rt, &mut house, 1_000, Workers::new(4).unwrap())?;
    names.tell(&rt, &engine)?;
    let till = engine
        .world()
        .and_then(|world| world.resource(ResNo::of(0)));
    println!(rt; "{} frames, and {till:?}", engine.frames_run())?;
    Ok(())
}
