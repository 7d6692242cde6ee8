// Parts that were moved out of slots.
ghost use Rattle.std.specs.Prelude.{◌≡◌, ◌==◌, ℕ, None, IfOk, IsSome, if◌then◌else◌, length, vec_len};
ghost use Rattle.std.specs.{Borrow.sem, Option.option_copied, Option.option_copied_mut, Option.option_or};
ghost use Rattle.msg_world.specs.Prelude.{has_bit};
ghost use Rattle.msg_world.specs.inner.Moved.{AreEmptyOf, GoesHome, MovesHome, MovesOut};
ghost use Rattle.msg_world.specs.inner.Slots.{HaveEach, at};

use crate::masks;
use crate::slots::{move_slot, slot_ref};
use std::alloc::{AllocError, Global};
use std::marker::Model;
use std::mem::replace;

/// Parts that were moved out of slots: as many slots, with each part in that of its number.
/// Contracts see these slots.
#[derive(Drop)]
pub(crate) struct MovedParts<T> {
    pub slots: Vec<Option<T>>,
    /// A bit for each slot that may hold a part.
    mask: u64,
}

impl<T> Model for MovedParts<T> {
    ghost use Rattle.std.specs.Prelude.{List, Option};
    ghost use Rattle.msg_world.specs.inner.Moved.{HoldNoneBut};

    ghost Value = { List (Option T) };

    ghost view = { λ m. m.slots.items };

    ghost invariant = { λ m. HoldNoneBut m.mask m.slots.items };
}

/// Moves what a slot holds home, if it holds anything.
fn put_home<T: Drop>(slots: &mut Vec<Option<T>>, home: &mut Vec<Option<T>>, k: usize)
    requires as_many { vec_len slots.old ≡ vec_len home.old }
    requires free { IsSome (at slots.old.items k) → at home.old.items k ≡ None }
    ensures left { (j : ℕ) → at slots.new.items j
        ≡ (if j == k then None else at slots.old.items j) }
    ensures joined { (j : ℕ) → at home.new.items j
        ≡ (if j == k then option_or (at slots.old.items j) (at home.old.items j)
        else at home.old.items j) }
    ensures slots_len { vec_len slots.new ≡ vec_len slots.old }
    ensures home_len { vec_len home.new ≡ vec_len home.old }
{
    if slot_ref(slots, k).is_some() {
        move_slot(slots, home, k);
    }
}

impl<T: Drop> MovedParts<T> {
    ghost use Rattle.msg_world.specs.inner.MovedLends.{LendsPart};

    /// So many slots, all of them empty.
    pub(crate) fn new(alloc: Global, slots: usize) -> Result<MovedParts<T>, AllocError>
        ensures empty { IfOk result (AreEmptyOf slots) }
    {
        let mut empty = Vec::with_capacity(alloc, slots)?;
        for _slot in 0..slots {
            empty.push_reserved(None);
        }
        Ok(MovedParts {
            slots: empty,
            mask: 0,
        })
    }

    /// Moves what the slots of a mask hold out of them.
    pub(crate) fn move_out(&mut self, from: &mut Vec<Option<T>>, mask: u64)
        requires empty { AreEmptyOf (vec_len from.old) self.old }
        requires each { HaveEach from.old.items (has_bit mask) }
        ensures moved { MovesOut mask from.old.items from.new.items self.new }
    {
        self.mask = mask;
        let mut rest = mask;
        while rest != 0 {
            let k = masks::lowest(rest);
            move_slot(from, &mut self.slots, k as usize);
            rest = masks::without_bit(rest, k);
        }
    }

    /// Moves all parts home, where their slots are empty.
    pub(crate) fn move_home(&mut self, home: &mut Vec<Option<T>>)
        requires free { GoesHome self.old home.old.items }
        ensures home { MovesHome self.old home.old.items home.new.items }
        ensures empty { AreEmptyOf (vec_len home.old) self.new }
    {
        let mut rest = replace(&mut self.mask, 0);
        while rest != 0 {
            let k = masks::lowest(rest);
            put_home(&mut self.slots, home, k as usize);
            rest = masks::without_bit(rest, k);
        }
    }

    pub(crate) fn get_mut(&mut self, slot: usize) -> Option<&mut T>
        ensures* writes_back { sem 𝓛 (LendsPart T.row self.entry slot result) }
        ensures held { option_copied_mut result ≡ at self.old slot }
    {
        match self.slots.get_mut(slot) {
            Some(Some(part)) => Some(part),
            _ => None,
        }
    }
}
