// Which systems use each part of a world.
ghost use Rattle.std.specs.Prelude.{◌≡◌, ◌&&◌, ◌⊎◌, ◌↔◌, ℕ, ◌<◌, ◌≤◌, List, Bool, IsTrue, length};
ghost use Rattle.msg_world.specs.{Prelude.Conflict, declared.access.Access.Access as AccessView};
ghost use Rattle.msg_order.specs.{Order.access_of, Settled.has_joined, inner.SystemSet.has, inner.Users.AddsUser, inner.Users.AreUsers, inner.Users.IsInConflict, inner.Users.IsUser};

use crate::paths::{only, put_before};
use crate::system_set::SystemSet;
use msg_world::{Access, MAX_RESOURCES, MAX_SYSTEMS, MAX_TYPES};

/// Of each type and each resource the systems that read it, and those that write it; and the
/// systems that write the registry.
#[derive(Clone, Copy)]
pub struct Users {
    read_types: [SystemSet; MAX_TYPES],
    write_types: [SystemSet; MAX_TYPES],
    read_res: [SystemSet; MAX_RESOURCES],
    write_res: [SystemSet; MAX_RESOURCES],
    registry: SystemSet,
}

/// Adds the systems that use a part whose bit is set.
fn add_users(users: &mut SystemSet, rows: &[SystemSet], parts: u64)
    requires few { length rows.now ≤ MAX_SYSTEMS }
    requires all { 64 ≤ length rows.now }
    ensures { (k : ℕ)
        → IsTrue (has users.new k) ↔ (IsTrue (has users.old k) ⊎ IsUser rows.now parts k) }
{
    let parts = SystemSet::of_bits(parts);
    let mut t = parts.next(0);
    'parts: while t < rows.len() {
        users.union_with(&rows[t]);
        t = parts.next(t + 1);
    }
}

/// Adds the systems that write a part that is read or written, and those that read one that is
/// written.
fn add_in_conflict(
    users: &mut SystemSet,
    readers: &[SystemSet],
    writers: &[SystemSet],
    read: u64,
    written: u64,
)
    requires few_readers { length readers.now ≤ MAX_SYSTEMS }
    requires few_writers { length writers.now ≤ MAX_SYSTEMS }
    requires all_readers { 64 ≤ length readers.now }
    requires all_writers { 64 ≤ length writers.now }
    ensures { (k : ℕ)
        → IsTrue (has users.new k)
        ↔ (IsTrue (has users.old k) ⊎ IsInConflict readers.now writers.now read written k) }
{
    add_users(users, readers, written);
    add_users(users, writers, read | written);
}

impl Users {
    /// The users of all parts among the systems that have joined.
    pub fn of(accesses: &[Access], joined: &[bool]) -> Users
        requires few { length accesses.now ≤ MAX_SYSTEMS }
        requires one_each { length joined.now ≡ length accesses.now }
        ensures users { AreUsers accesses.now joined.now result }
    {
        let none = SystemSet::empty();
        let mut users = Users {
            read_types: [none; MAX_TYPES],
            write_types: [none; MAX_TYPES],
            read_res: [none; MAX_RESOURCES],
            write_res: [none; MAX_RESOURCES],
            registry: none,
        };
        for i in 0..accesses.len() {
            if joined[i] {
                users.add(i, &accesses[i]);
            }
        }
        users
    }

    /// Adds a system to the users of the parts of its access.
    fn add(&mut self, system: usize, access: &Access)
        requires { system < MAX_SYSTEMS }
        ensures { AddsUser system access.now self.old self.new }
    {
        let system = only(system);
        put_before(
            &mut self.read_types,
            &SystemSet::of_bits(access.read_types),
            &system,
        );
        put_before(
            &mut self.write_types,
            &SystemSet::of_bits(access.write_types),
            &system,
        );
        put_before(
            &mut self.read_res,
            &SystemSet::of_bits(access.read_res),
            &system,
        );
        put_before(
            &mut self.write_res,
            &SystemSet::of_bits(access.write_res),
            &system,
        );
        if access.registry {
            self.registry.union_with(&system);
        }
    }

    /// The systems with which an access is in conflict.
    pub fn in_conflict_with(&self, access: &Access) -> SystemSet
        ensures { (accesses : List AccessView) (joined : List Bool)
            → AreUsers accesses joined self.now → (k : ℕ)
            → IsTrue (has result k)
            ↔ (IsTrue (has_joined joined k) × Conflict access.now (access_of accesses k)) }
    {
        let mut users = SystemSet::empty();
        add_in_conflict(
            &mut users,
            &self.read_types,
            &self.write_types,
            access.read_types,
            access.write_types,
        );
        add_in_conflict(
            &mut users,
            &self.read_res,
            &self.write_res,
            access.read_res,
            access.write_res,
        );
        if access.registry {
            users.union_with(&self.registry);
        }
        users
    }
}
