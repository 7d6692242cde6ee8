//! What goes into the slots of a board, and comes out of them.
ghost use Rattle.std.specs.Prelude.{◌≡◌, ◌<◌, ◌≤◌, [], ◌∷◌, map, IfOk, OnErr, vec_capacity};
ghost use Rattle.std.specs.Slots.{slots_items, slots_len, IsFull};
ghost use Rattle.msg_board.specs.Prelude.{Empty, Job, Done};
ghost use Rattle.msg_board.specs.inner.Closing.{HasDone, AreResultsIn};

use crate::NoMemory;
use crate::law::{Deal, Law, Slot, View};
use crate::work::Work;
use atomic_table::{Closed, Seat, Shared};
use std::alloc::Allocator;

// The slots of a new board.
pub(crate) fn slots_of<J: Drop, D: Drop, A: Allocator>(
    alloc: A,
    jobs: Vec<J, A>,
) -> Result<Vec<Slot<J, D>, A>, NoMemory>
    ensures { IfOk result (λ slots. slots.items ≡ map Job jobs.items) }
{
    let mut slots = Vec::with_capacity(alloc, jobs.len())?;
    for job in jobs {
        slots.push(Slot::Job(job))?;
    }
    Ok(slots)
}

// The job leaves its slot.
pub(crate) fn take_out<W: Work, A: Allocator>(
    shared: &Shared<Slot<W::Job, W::Done>, View<W::Job>, Deal<W::Job, A>, Law<W>>,
    seat: &mut Seat<Slot<W::Job, W::Done>, View<W::Job>>,
    k: usize,
) -> W::Job
    requires table { seat.old.table_id ≡ shared.now.table_id }
    requires job { (j : W.Job) × (seat.old.me.1 ≡ (k, Job j) ∷ []) }
    ensures table { seat.new.table_id ≡ seat.old.table_id }
    ensures was { seat.old.me.1 ≡ (k, Job result) ∷ [] }
    ensures now { seat.new.me ≡ (seat.old.me.0, (k, Empty) ∷ []) }
{
    match shared.exchange(seat, k, Slot::Empty) {
        Slot::Job(job) => job,
        _ => unreachable!(),
    }
}

// The result enters the slot.
pub(crate) fn put_in<W: Work, A: Allocator>(
    shared: &Shared<Slot<W::Job, W::Done>, View<W::Job>, Deal<W::Job, A>, Law<W>>,
    seat: &mut Seat<Slot<W::Job, W::Done>, View<W::Job>>,
    k: usize,
    done: W::Done,
)
    requires table { seat.old.table_id ≡ shared.now.table_id }
    requires empty { seat.old.me.1 ≡ (k, Empty) ∷ [] }
    ensures table { seat.new.table_id ≡ seat.old.table_id }
    ensures id { seat.new.id ≡ seat.old.id }
    ensures now { seat.new.me ≡ (seat.old.me.0, (k, Done done) ∷ []) }
{
    drop(shared.exchange(seat, k, Slot::Done(done)));
}

// The results of a closed board. If there are none it takes no memory.
pub(crate) fn results_of<J: Drop, D: Drop, A: Allocator>(
    alloc: A,
    closed: Closed<Slot<J, D>, A>,
) -> Result<Vec<D, A>, NoMemory>
    requires full { IsFull closed.slots }
    requires done { HasDone (slots_len closed.slots) (slots_items closed.slots) }
    ensures results { IfOk result (λ results.
        AreResultsIn (slots_len closed.slots) (slots_items closed.slots) results.items) }
    ensures refused { OnErr result (0 < slots_len closed.slots) }
{
    match Vec::with_capacity(alloc, closed.slot_count()) {
        Ok(results) => Ok(take_results(closed, results)),
        Err(no_memory) => {
            drop_slots(closed);
            Err(no_memory)
        }
    }
}

// Moves the results out of the slots.
fn take_results<J: Drop, D: Drop, A: Allocator>(
    mut closed: Closed<Slot<J, D>, A>,
    mut results: Vec<D, A>,
) -> Vec<D, A>
    requires empty { results.items ≡ [] }
    requires room { slots_len closed.slots ≤ vec_capacity results }
    requires full { IsFull closed.slots }
    requires done { HasDone (slots_len closed.slots) (slots_items closed.slots) }
    ensures { AreResultsIn (slots_len closed.slots) (slots_items closed.slots) result.items }
{
    let mut i = 0;
    while i < closed.slot_count() {
        match closed.take(i) {
            Slot::Done(done) => results.push_reserved(done),
            _ => unreachable!(),
        }
        i += 1;
    }
    closed.free();
    results
}

// Drops what the slots have.
fn drop_slots<J: Drop, D: Drop, A: Allocator>(mut closed: Closed<Slot<J, D>, A>)
    requires full { IsFull closed.slots }
{
    let mut i = 0;
    while i < closed.slot_count() {
        drop(closed.take(i));
        i += 1;
    }
    closed.free();
}
