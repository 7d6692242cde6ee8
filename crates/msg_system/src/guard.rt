// Conditions with cursors of their own.
ghost use Rattle.std.specs.Prelude.{◌≡◌, All, map};
ghost use Rattle.msg_world.specs.Prelude.{LoanStands, WorldState};
ghost use Rattle.msg_system.specs.Prelude.{Covers, after_asking, all_hold, answer, asked_started, condition_needs, inverted, new_asked};

use crate::cursors::start_cursor;
use crate::lending::{messages_of, value_of};
use crate::{Condition, Probe, Start};
use msg_buffer::MessageCursor;
use msg_world::{Counts, Lent, Value};
use std::marker::Model;

/// A condition with a cursor of its own.
#[derive(Drop)]
pub struct Guard<V = i64> {
    condition: Condition<V>,
    cursor: MessageCursor,
}

impl<V> Model for Guard<V> {
    ghost use Rattle.msg_system.specs.Conditions.{Asked};

    ghost Value = { Asked V };

    ghost view = { λ g. record { condition = g.condition; place = g.cursor } };
}

/// The answer, inverted so many times.
fn invert(nots: u8, found: bool) -> bool
    ensures inverted { result ≡ inverted nots found }
{
    let mut answer = found;
    for _inverted in 0..nots {
        answer = !answer;
    }
    answer
}

impl<V: Value> Guard<V> {
    /// It has read nothing yet.
    pub fn new(condition: Condition<V>) -> Guard<V>
        ensures new { result ≡ new_asked condition }
    {
        Guard {
            condition,
            cursor: MessageCursor::new(0),
        }
    }

    /// Sets its cursor to where the cursors of its system start.
    pub fn start(&mut self, counts: &Counts, start: Start)
        ensures started { self.new ≡ asked_started start counts.now self.old }
    {
        let probe = self.condition.probe;
        if let Probe::OnMessage(t) = probe {
            self.cursor = start_cursor(start, counts, t);
        }
    }

    /// What its condition answers. It goes past the messages that it finds.
    pub fn check(&mut self, lent: &Lent<V>) -> bool
        requires covers { Covers (condition_needs self.old.condition) lent.now }
        ensures answer { (s : WorldState V.values) → LoanStands lent.now s
            → result ≡ answer self.old s }
        ensures moved { (s : WorldState V.values) → LoanStands lent.now s
            → self.new ≡ after_asking s self.old }
        ensures same { self.new.condition ≡ self.old.condition }
    {
        let probe = self.condition.probe;
        let found = match probe {
            Probe::OnMessage(t) => {
                let messages = messages_of(lent, t);
                let unread = self.cursor.len(messages);
                self.cursor.clear(messages);
                unread > 0
            }
            Probe::ResourceEquals(r, value) => value_of(lent, r) == value,
        };
        invert(self.condition.nots, found)
    }

    /// Whether all conditions hold. Each of them is asked, whatever the others answer.
    pub fn check_all(guards: &mut [Guard<V>], lent: &Lent<V>) -> bool
        requires covers { All (λ c. Covers (condition_needs c) lent.now)
            (map (λ g. g.condition) guards.old) }
        ensures answer { (s : WorldState V.values) → LoanStands lent.now s
            → result ≡ all_hold guards.old s }
        ensures moved { (s : WorldState V.values) → LoanStands lent.now s
            → guards.new ≡ map (after_asking s) guards.old }
        ensures same { map (λ g. g.condition) guards.new ≡ map (λ g. g.condition) guards.old }
    {
        let mut all = true;
        for guard in guards.iter_mut() {
            all &= guard.check(lent);
        }
        all
    }
}
