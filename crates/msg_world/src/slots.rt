// Slots that hold something or are empty.
ghost use Rattle.std.specs.Prelude.{◌≡◌, ◌<◌, ◌==◌, ◌↔◌, ◌||◌, ℕ, IsTrue, None, if◌then◌else◌, length, vec_len};
ghost use Rattle.std.specs.Option.{option_copied};
ghost use Rattle.msg_buffer.specs.Prelude.{History};
ghost use Rattle.msg_world.specs.Prelude.{Record, has_bit};
ghost use Rattle.msg_world.specs.inner.Slots.{BufferStands, HaveEach, at};

use crate::boxed::Boxed;
use crate::record::Record;
use crate::{Value, masks};
use msg_buffer::Messages;
use std::mem::swap;

/// What a slot holds; nothing if there is no such slot.
pub(crate) fn slot_ref<T>(slots: &Vec<Option<T>>, k: usize) -> Option<&T>
    ensures held { option_copied result ≡ at slots.now.items k }
{
    slots.get(k)?.as_ref()
}

/// Moves what a slot holds into the slot of the same number of another list, which is empty.
pub(crate) fn move_slot<T: Drop>(from: &mut Vec<Option<T>>, to: &mut Vec<Option<T>>, k: usize)
    requires from { k < vec_len from.old }
    requires to { k < vec_len to.old }
    requires free { at to.old.items k ≡ None }
    ensures moved { (j : ℕ) → at to.new.items j
        ≡ (if j == k then at from.old.items j else at to.old.items j) }
    ensures left { (j : ℕ) → at from.new.items j
        ≡ (if j == k then None else at from.old.items j) }
    ensures moved_len { vec_len to.new ≡ vec_len to.old }
    ensures left_len { vec_len from.new ≡ vec_len from.old }
{
    swap(&mut from[k], &mut to[k]);
}

/// Whether each slot of two masks holds something.
#[tactic(auto, using(crate::proofs::Bits::of_masks))]
pub(crate) fn have_each<T>(slots: &Vec<Option<T>>, read: u64, write: u64) -> bool
    ensures each { IsTrue result
        ↔ HaveEach slots.now.items (λ k. has_bit read k || has_bit write k) }
{
    let mut rest = read | write;
    while rest != 0 {
        let k = masks::lowest(rest);
        if slot_ref(slots, k as usize).is_none() {
            return false;
        }
        rest = masks::without_bit(rest, k);
    }
    true
}

/// A law: each buffer stands for some history.
pub(crate) fn each_stands<V: Value>(types: &[Option<Boxed<Messages<Record<V>>>>])
    ensures histories { (t : ℕ) → t < length types.now
        → (h : History (Record V)) × BufferStands (at types.now t) h }
{
    for slot in types {
        if let Some(messages) = slot {
            messages.part.stands_for_some();
        }
    }
}
