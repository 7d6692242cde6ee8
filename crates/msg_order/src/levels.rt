// Batches, taken level by level from the systems that are left.
ghost use Rattle.std.specs.Prelude.{◌≡◌, ◌&&◌, ℕ, ◌<◌, ◌≤◌, Bool, List, true, length, map, filter, IfOk, OnErr};
ghost use Rattle.std.specs.List.{range_with_len};
ghost use Rattle.msg_order.specs.{Prelude.Graph, Prelude.IsAcyclic, Prelude.batches, inner.Paths.ArePaths, inner.Paths.IsSetOf, inner.Paths.is_ready, inner.Paths.set_at, inner.SystemSet.has, inner.SystemSet.meets};

use crate::system_set::SystemSet;
use msg_world::MAX_SYSTEMS;
use std::alloc::{AllocError, Allocator};

/// The next batch, which has each system that is left and that no system left precedes; and the
/// systems that are left after it.
#[tactic(auto, using(crate::proofs::Elements::range_filters))]
fn take_level<A: Allocator + Copy>(
    alloc: A,
    before: &[SystemSet],
    left: &SystemSet,
) -> Result<(Vec<u32, A>, SystemSet), AllocError>
    requires few { length before.now ≤ MAX_SYSTEMS }
    requires within { (k : ℕ) → has left.now k ≡ true → k < length before.now }
    ensures ready { IfOk result (λ r.
        r.0.items ≡ filter (is_ready before.now left.now) (range_with_len 0 (length before.now))) }
    ensures next { IfOk result (λ r.
        (i : ℕ) → has r.1 i ≡ (has left.now i && meets (set_at before.now i) left.now)) }
    ensures asked { OnErr result (0 < length before.now) }
{
    let mut batch = Vec::new(alloc);
    let mut next = SystemSet::empty();
    let mut i = left.next(0);
    'left: while i < before.len() {
        let is_blocked = before[i].meets(left);
        if is_blocked {
            next.insert(i);
        } else {
            batch.push(i as u32)?;
        }
        i = left.next(i + 1);
    }
    Ok((batch, next))
}

/// The batches of the joined systems.
pub fn batches_of<A: Allocator + Copy>(
    alloc: A,
    before: &[SystemSet],
    joined: &SystemSet,
) -> Result<Vec<Vec<u32, A>, A>, AllocError>
    requires few { length before.now ≤ MAX_SYSTEMS }
    requires within { (k : ℕ) → has joined.now k ≡ true → k < length before.now }
    ensures batches { IfOk result (λ made. (g : Graph) (systems : List Bool)
        → ArePaths g before.now → IsSetOf systems joined.now
        → length systems ≡ length before.now → IsAcyclic g
        → map (λ batch. batch.items) made.items ≡ batches g systems) }
    ensures asked { OnErr result (0 < length before.now) }
{
    let mut batches = Vec::new(alloc);
    let mut left = *joined;
    'levels: loop {
        let (batch, next) = take_level(alloc, before, &left)?;
        if batch.is_empty() {
            return Ok(batches);
        }
        batches.push(batch)?;
        left = next;
    }
}
