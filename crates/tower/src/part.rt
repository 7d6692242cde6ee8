// The parts of the game.
ghost use Rattle.std.specs.Prelude.{◌≡◌};
ghost use Rattle.tower.specs.Parts.{aimed, hurt};

use crate::event::Event;
use msg_game::{Function, Inbox, NoMemory, Outbox, added_up};

// What a creep reads and writes.
pub const SHOTS: usize = 0;

pub const WALKS: usize = 0;

pub const BREAKS: usize = 1;

// What a tower reads and writes.
pub const WALKED: usize = 0;

pub const SHOT: usize = 0;

// What a gate reads and writes.
pub const BROKEN: usize = 0;

pub const LIVES: usize = 1;

pub const LEFT: usize = 0;

/// Who does something, and what it remembers.
#[derive(Clone, Copy)]
pub enum Part {
    /// Walks to the keep, and breaks in there: its number, its health, and its steps to the keep.
    Creep(u32, u32, u32),
    /// Shoots the last creep that walked within this reach, and takes so much health of it.
    Tower(u32, u32),
    /// Takes from the keep's lives what those who broke in cost.
    Gate,
}

/// The health that an event leaves to a creep.
fn hurt(creep: u32, health: u32, event: Event) -> u32
    ensures health { result ≡ hurt creep health event }
{
    match event {
        Event::Shot(target, amount) if target == creep => health.saturating_sub(amount),
        _ => health,
    }
}

/// Whom a tower of this reach aims at after an event.
fn aimed(reach: u32, target: Option<u32>, event: Event) -> Option<u32>
    ensures target { result ≡ aimed reach target event }
{
    match event {
        Event::Walked(creep, left) if left <= reach => Some(creep),
        _ => target,
    }
}

impl Function<2, 2> for Part {
    type Value = Event;

    ghost use Rattle.tower.specs.Parts.{answers_of};

    ghost answers = { answers_of };

    fn answer(
        &mut self,
        inbox: &Inbox<Event>,
        outbox: &mut Outbox<Event, 2>,
    ) -> Result<(), NoMemory> {
        match *self {
            Part::Creep(creep, health, left) => {
                let shots = inbox.read(SHOTS).iter();
                let health = shots.fold(health, |health, shot| hurt(creep, health, shot.value));
                if health == 0 || left == 0 {
                    *self = Part::Creep(creep, health, left);
                    return Ok(());
                }
                *self = Part::Creep(creep, health, left - 1);
                if left == 1 {
                    outbox.write(BREAKS, Event::Broke(creep, 1))
                } else {
                    outbox.write(WALKS, Event::Walked(creep, left - 1))
                }
            }
            Part::Tower(reach, amount) => {
                let walks = inbox.read(WALKED).iter();
                match walks.fold(None, |target, walk| aimed(reach, target, walk.value)) {
                    Some(creep) => outbox.write(SHOT, Event::Shot(creep, amount)),
                    None => Ok(()),
                }
            }
            Part::Gate => match inbox.value(LIVES) {
                Some(lives) => outbox.write(LEFT, added_up(lives, inbox.read(BROKEN))),
                None => Ok(()),
            },
        }
    }
}
