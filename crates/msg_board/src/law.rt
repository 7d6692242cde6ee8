//! What a board's table is made of, and what each of its steps does.
use crate::work::Work;
use atomic_table::{Join, Play, Split, TableRule};
use std::alloc::Allocator;
use std::collections::LinkedList;
use std::marker::PhantomData;
use std::snapshot::Snapshot;

/// A place for one job, and later for its result. It is `Empty` only while a pass has the job out.
#[derive(Drop)]
pub enum Slot<J, D> {
    Empty,
    Job(J),
    Done(D),
}

/// What a pass knows and has done. It is ghost: no value of it is made.
pub struct View<J> {
    /// The jobs of the board.
    pub jobs: LinkedList<J>,
    /// How many passes the view stands for; 0 if it is spent.
    pub weight: u64,
    /// The first word that it has not tried.
    pub next: u64,
    /// The numbers that it has drawn, in order.
    pub drawn: LinkedList<u64>,
    /// The number that it holds.
    pub held: Option<u64>,
}

/// What the table is told as it is made: the jobs, and how many passes there are.
#[derive(Drop)]
pub struct Deal<J, A: Allocator> {
    pub jobs: Snapshot<Vec<J, A>>,
    pub passes: u64,
}

/// The law, as the rule of the table.
pub struct Law<W> {
    work: PhantomData<W>,
}

impl<W: Work, A: Allocator> TableRule<Slot<W::Job, W::Done>, View<W::Job>, Deal<W::Job, A>>
    for Law<W> {
    ghost use Rattle.msg_board.specs.Law.{Holds, whole_view};

    ghost holds = { λ deal. Holds W.lawful deal.jobs.value.items deal.passes };

    ghost first = { λ deal. whole_view deal.jobs.value.items deal.passes };
}

/// A `fetch_max` with 1 on the pass's next word.
pub struct Draw;

impl<J, D> Play<Slot<J, D>, View<J>> for Draw {
    ghost use Rattle.msg_board.specs.Law.{Drawing};

    ghost then = { Drawing };
}

/// A store of 2 on the word of the number that the pass holds.
pub struct HandIn;

impl<J, D> Play<Slot<J, D>, View<J>> for HandIn {
    ghost use Rattle.msg_board.specs.Law.{HandingIn};

    ghost then = { HandingIn };
}

/// The first seat gives one pass away.
pub struct Divide;

impl<J> Split<View<J>> for Divide {
    ghost use Rattle.msg_board.specs.Law.{without_one, one_of};

    ghost left = { without_one };

    ghost right = { one_of };
}

/// A seat takes another's numbers and weight.
pub struct Unite;

impl<J> Join<View<J>> for Unite {
    ghost use Rattle.msg_board.specs.Law.{view_union, empty_view};

    ghost both = { view_union };

    ghost spent = { empty_view };
}
