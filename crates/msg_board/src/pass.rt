//! A worker's right to draw from one board.
ghost use Rattle.std.specs.Prelude.{◌≡◌, length, IsTrue, [], None, true, false};
ghost use Rattle.msg_board.specs.Prelude.{PassState, whole_view};
ghost use Rattle.msg_board.specs.inner.Seats.{IsSeatOf};

use crate::law::{Slot, View};
use atomic_table::Seat;
use std::marker::Model;

/// A worker's right to draw from one board. Clauses see it as a `PassState`.
#[derive(Drop)]
pub struct Pass<J, D> {
    pub(crate) seat: Seat<Slot<J, D>, View<J>>,
    pub(crate) next: usize,
    pub(crate) held: Option<usize>,
    pub(crate) finished: bool,
}

impl<J, D> Model for Pass<J, D> {
    ghost use Rattle.msg_board.specs.Pass.{PassState};

    ghost Value = { PassState J };

    ghost use Rattle.msg_board.specs.inner.SoundPasses.{pass_state, IsSoundPass};

    ghost view = { pass_state };

    ghost invariant = { IsSoundPass };
}

impl<J, D> Pass<J, D> {
    /// The number that was drawn and not yet handed in.
    pub fn holding(&self) -> Option<usize>
        ensures held { result ≡ self.now.holding }
    {
        self.held
    }

    /// Whether it drew None, after which it draws nothing else.
    pub fn is_finished(&self) -> bool
        ensures says { result ≡ self.now.finished }
        ensures all_tried { IsTrue result → self.now.tried ≡ length self.now.jobs }
    {
        self.finished
    }

    pub(crate) fn new(seat: Seat<Slot<J, D>, View<J>>) -> Pass<J, D>
        requires view { seat.me.0 ≡ whole_view seat.me.0.jobs 1 }
        requires nothing_out { seat.me.1 ≡ [] }
        ensures table { result.table ≡ seat.table_id }
        ensures jobs { result.jobs ≡ seat.me.0.jobs }
        ensures tried { result.tried ≡ 0 }
        ensures drawn { result.drawn ≡ [] }
        ensures holding { result.holding ≡ None }
        ensures unfinished { result.finished ≡ false }
    {
        Pass {
            seat,
            next: 0,
            held: None,
            finished: false,
        }
    }

    pub(crate) fn into_seat(self) -> Seat<Slot<J, D>, View<J>>
        ensures seat { IsSeatOf self result }
        ensures all_tried { self.finished ≡ true → self.tried ≡ length self.jobs }
    {
        let Pass {
            seat,
            next: _,
            held: _,
            finished: _,
        } = self;
        seat
    }
}
