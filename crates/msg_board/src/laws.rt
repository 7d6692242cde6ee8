//! Laws: facts that hold of every board, and need no code.
ghost use Rattle.std.specs.Prelude.{ℕ, List};
ghost use Rattle.atomic_table.specs.Table.{State};
ghost use Rattle.msg_board.specs.Prelude.{Holds, IsHeldAlone, Slot, View};

use crate::work::Work;

/// In every state of every board, no two views hold one number, and the slot of a number that is
/// held isn't at home.
pub fn each_number_is_held_alone<W: Work>()
    ensures alone { (jobs : List W.Job) (passes : ℕ)
        → (s : State (Slot W.Job W.Done) (View W.Job)) → (k : ℕ)
        → Holds W.lawful jobs passes s → IsHeldAlone s k }
{}
