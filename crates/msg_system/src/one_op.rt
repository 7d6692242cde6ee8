// One op of a turn.
ghost use Rattle.std.specs.Prelude.{◌≡◌, ◌+◌, ◌<◌, [], ◌∷◌, IfOk, OnOk, vec_capacity, vec_len};
ghost use Rattle.msg_world.specs.Prelude.{SameLoan, SameShape, taken_of};
ghost use Rattle.msg_system.specs.Prelude.{Covers, Ran, Start, cursor_places, of_program, only, op_needs, program_needs};
ghost use Rattle.msg_system.specs.inner.TurnRuns.{OpAnswered};

use crate::{Cursors, NoMemory, Op, Reply};
use msg_world::{Lent, Taken, Value};
use std::alloc::Global;

/// Does the op, and appends its reply, for which there is room.
pub(crate) fn answer<V: Value>(
    alloc: Global,
    op: &Op<V>,
    writer: u32,
    cursors: &mut Cursors,
    lent: &mut Lent<V>,
    out: &mut Vec<Reply<V>>,
) -> Result<(), NoMemory>
    requires covers { Covers (op_needs op.now) lent.old }
    requires room { vec_len out.old < vec_capacity out.old }
    ensures answered { OnOk result (OpAnswered V.values op.now writer (cursor_places cursors.old)
        (cursor_places cursors.new) lent.old lent.new out.old.items out.new.items) }
    ensures same { OnOk result (SameLoan lent.old lent.new) }
    ensures long { OnOk result (vec_len out.new ≡ vec_len out.old + 1) }
    ensures capacity { OnOk result (vec_capacity out.new ≡ vec_capacity out.old) }
{
    out.push_reserved(op.run(alloc, writer, cursors, lent)?);
    Ok(())
}

/// Takes the turn of a system whose program is this op.
#[inline(always)]
pub(crate) fn take_turn<V: Value>(
    alloc: Global,
    op: Op<V>,
    writer: u32,
    cursors: &mut Cursors,
    mut lent: Lent<V>,
    out: &mut Vec<Reply<V>>,
) -> Result<Taken<V>, NoMemory>
    requires covers { Covers (program_needs (op ∷ [])) lent }
    ensures ran { (start : Start) → IfOk result
        (λ taken. Ran V.values (of_program (only op start) writer (cursor_places cursors.old))
        (of_program (only op start) writer (cursor_places cursors.new))
        lent.entry taken out.old.items out.new.items) }
    ensures shape { IfOk result (λ taken. SameShape (taken_of lent.entry) taken) }
{
    out.reserve_exact(1)?;
    answer(alloc, &op, writer, cursors, &mut lent, out)?;
    Ok(lent.into_taken())
}
