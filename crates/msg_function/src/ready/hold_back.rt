// Forwarding in some turns alone.
ghost use Rattle.std.specs.Prelude.{◌≡◌, []};

use crate::{Function, Inbox, NoMemory, Outbox};
use msg_world::Value;
use std::alloc::Global;
use std::marker::Model;

/// Reads a type in each turn, keeps what it read, and writes all of it in every turn of so many, in
/// order. So a reader of what it writes has work in these turns alone. What is refused, since too few
/// numbers are left of the type that it writes, isn't kept: it is counted in its writer's account.
///
/// ```
/// let slow = FunctionSystem::new(alloc, HoldBack::new(alloc, 10), [Port::Messages(hits)], [Port::Messages(tenth)])?;
/// ```
#[derive(Drop)]
pub struct HoldBack<V = i64> {
    every: u32,
    left: u32,
    kept: Vec<V>,
}

impl<V> Model for HoldBack<V> {
    ghost use Rattle.msg_function.specs.Ready.{Held};

    ghost Value = { Held V };

    ghost view = { λ h. record { every = h.every; left = h.left; kept = h.kept.items } };
}

impl<V: Value> HoldBack<V> {
    /// Writes in every turn of this number; 0 is taken as 1.
    pub fn new(alloc: Global, every: u32) -> HoldBack<V>
        ensures new { result ≡ record { every = every; left = every; kept = [] } }
    {
        HoldBack {
            every,
            left: every,
            kept: Vec::new(alloc),
        }
    }
}

impl<V: Value> Function<1, 1> for HoldBack<V> {
    type Value = V;

    ghost use Rattle.msg_function.specs.Ready.{held_back};

    ghost answers = { held_back };

    fn answer(&mut self, inbox: &Inbox<V>, outbox: &mut Outbox<V, 1>) -> Result<(), NoMemory> {
        for message in inbox.read(0) {
            self.kept.push(message.value)?;
        }
        if self.left > 1 {
            self.left -= 1;
            return Ok(());
        }
        self.left = self.every;
        outbox.write_all(0, self.kept.as_slice())?;
        self.kept.clear();
        Ok(())
    }
}
