// The systems of a fight.
ghost use Rattle.std.specs.Prelude.{◌≡◌, ℤ, IsTrue, List, Some};
ghost use Rattle.msg_world.specs.Prelude.{WorldState, i64_values};
ghost use Rattle.msg_system.specs.Prelude.{IsUncut, keeps_to, needs_of, turn};
ghost use Rattle.msg_system.specs.declared.{op.Op.Op as OpView, reply.Reply.Reply as ReplyView};
ghost use Rattle.duel.specs.Roles.{next_deed};

use msg_system::{
    Access, Behavior, BehaviorSystem, NoMemory, Op, Reply, Start, SystemOf, added_up, brought,
    turns_within_bounds_are_whole,
};
use msg_world::{ResNo, TypeNo};
use std::alloc::Global;

/// What a blow adds to a fighter's health.
const BLOW: i64 = -1;

/// Reads the blows that came to it. While it has health left it deals a blow to its rival; when it
/// has none it says once that it fell, and does nothing in later turns.
#[derive(Drop)]
pub struct Fighter {
    pub blows: TypeNo,
    pub rival: TypeNo,
    pub falls: TypeNo,
    pub health: i64,
}

/// What a system of the fight does.
#[derive(Drop)]
pub enum Role {
    Fighter(Fighter),
    /// Adds the falls of a type to a resource.
    Referee(TypeNo, ResNo),
}

impl Role {
    /// What it reads and writes: each op that it asks for keeps to that.
    fn access(&self) -> Access
        ensures kept { (replies : List (ReplyView ℤ)) (op : OpView ℤ)
            → next_deed self.now replies ≡ Some op → IsTrue (keeps_to (needs_of result) op) }
    {
        let none = Access::none();
        match self {
            Role::Fighter(f) => none
                .with_read_type(f.blows)
                .with_write_type(f.rival)
                .with_write_type(f.falls),
            Role::Referee(falls, fallen) => none.with_read_type(*falls).with_write_res(*fallen),
        }
    }

    /// A system of this role. It writes as 0 until a builder gives it a number.
    pub fn system(self, alloc: Global) -> BehaviorSystem<Role>
        // Its turn isn't cut, whatever the world.
        ensures uncut { let m = ⟦<BehaviorSystem<Role> as SystemOf>⟧.meaning result in
            (s : WorldState i64_values) → IsUncut m s (turn m s) }
    {
        turns_within_bounds_are_whole::<i64>();
        let access = self.access();
        BehaviorSystem::new(alloc, self, access, Start::Zero, 0)
    }
}

impl Behavior for Role {
    type Value = i64;

    ghost use Rattle.duel.specs.{declared.role.Role.Role, Roles.next_deed, Roles.role_after};

    ghost Memory = { Role };

    ghost memory = { λ r. r };

    ghost next_op = { next_deed };

    ghost remembered = { role_after };

    fn next(&self, _alloc: Global, replies: &[Reply]) -> Result<Option<Op>, NoMemory> {
        Ok(match (self, replies.len()) {
            (Role::Fighter(f), 0) => (f.health > 0).then_some(Op::Read(f.blows, None)),
            (Role::Fighter(f), 1) => {
                let is_up = added_up(f.health, brought(replies, 0)) > 0;
                Some(if is_up {
                    Op::Write(f.rival, BLOW)
                } else {
                    Op::Write(f.falls, 1)
                })
            }
            (Role::Referee(falls, fallen), 0) => Some(Op::Sum(*falls, *fallen)),
            _ => None,
        })
    }

    fn remember(&mut self, _alloc: Global, replies: &[Reply]) -> Result<(), NoMemory> {
        if let Role::Fighter(f) = self {
            f.health = added_up(f.health, brought(replies, 0));
        }
        Ok(())
    }
}
