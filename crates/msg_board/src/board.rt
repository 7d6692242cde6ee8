//! The board: its jobs, and how its passes draw them.
ghost use Rattle.std.specs.Prelude.{◌≡◌, ◌+◌, ◌<◌, ◌≤◌, [], length, slice_get, All, false, IfOk, IfSome, IfNone, IsNone, IsTrue, None, OnErr, Some};
ghost use Rattle.msg_board.specs.Prelude.{Drew, DrewNone, HandedIn, HoldsEachOnce, drawn_by, handed_in_by, whole_view};

use crate::NoMemory;
use crate::law::{Deal, Divide, Draw, HandIn, Law, Slot, Unite, View};
use crate::limits::{MAX_JOBS, MAX_PASSES};
use crate::pass::Pass;
use crate::slots::{put_in, results_of, slots_of, take_out};
use crate::work::Work;
use atomic_table::{Seat, Table};
use std::alloc::{Allocator, Global};
use std::marker::Model;
use std::snapshot::Snapshot;

/// Jobs that several workers draw, each with a pass of its own. A job's number is its place in the
/// list that `new` was given. Clauses see it as a `BoardView`.
///
/// ```
/// let (board, mut passes) = Board::<Squaring>::new(alloc, numbers, 2)?;
/// for pass in passes.iter_mut() {
///     while let Some((k, number)) = board.draw(pass) {
///         board.hand_in(pass, k, u64::from(number) * u64::from(number));
///     }
/// }
/// let squares = board.close(alloc, passes)?;
/// ```
#[derive(Drop)]
pub struct Board<W: Work, A: Allocator = Global> {
    table: Table<Slot<W::Job, W::Done>, View<W::Job>, Deal<W::Job, A>, Law<W>, A>,
}

impl<W: Work, A: Allocator> Model for Board<W, A> {
    ghost use Rattle.msg_board.specs.{Board.BoardView, inner.SoundPasses.IsBoard, inner.SoundPasses.board_of};

    ghost Value = { BoardView W.Job };

    ghost view = { board_of };

    ghost invariant = { IsBoard };
}

impl<W: Work, A: Allocator + Copy> Board<W, A> {
    ghost use Rattle.msg_board.specs.Board.{jobs_of, passes_of, IsNewPass};

    /// A board with these jobs, and its passes. If there is no memory, the jobs are dropped.
    pub fn new(
        alloc: A,
        jobs: Vec<W::Job, A>,
        passes: u32,
    ) -> Result<(Board<W, A>, Vec<Pass<W::Job, W::Done>, A>), NoMemory>
        requires jobs { length jobs.items ≤ MAX_JOBS }
        requires passes { (0 < passes) × (passes ≤ MAX_PASSES) }
        ensures jobs { IfOk result (λ made. jobs_of made.0 ≡ jobs.items) }
        ensures passes { IfOk result (λ made. passes_of made.0 ≡ passes) }
        ensures as_many { IfOk result (λ made. length made.1.items ≡ passes) }
        ensures fresh { IfOk result (λ made. All (IsNewPass made.0) made.1.items) }
    {
        let deal = Deal {
            jobs: Snapshot::of(&jobs),
            passes: passes as u64,
        };
        let words = Vec::from_elem(alloc, 0u64, jobs.len() + 1)?;
        let slots = slots_of(alloc, jobs)?;
        let Ok((table, seat)) = Table::new(alloc, words.as_slice(), slots, &deal) else {
            return Err(NoMemory);
        };
        let board = Board { table };
        let passes = board.divide(alloc, seat, passes)?;
        Ok((board, passes))
    }

    // As many passes as the seat stands for.
    fn divide(
        &self,
        alloc: A,
        mut seat: Seat<Slot<W::Job, W::Done>, View<W::Job>>,
        passes: u32,
    ) -> Result<Vec<Pass<W::Job, W::Done>, A>, NoMemory>
        requires table { seat.table_id ≡ self.now.table }
        requires view { seat.me ≡ (whole_view (jobs_of self.now) passes, []) }
        requires some_pass { 0 < passes }
        ensures as_many { IfOk result (λ all. length all.items ≡ passes) }
        ensures fresh { IfOk result (λ all. All (IsNewPass self.now) all.items) }
    {
        let mut all = Vec::with_capacity(alloc, passes as usize)?;
        let mut left = passes;
        while left > 1 {
            let one = self.table.shared.split_seat::<Divide>(&mut seat);
            all.push(Pass::new(one))?;
            left -= 1;
        }
        all.push(Pass::new(seat))?;
        Ok(all)
    }
}

impl<W: Work, A: Allocator> Board<W, A> {
    ghost use Rattle.msg_board.specs.{Board.jobs_of, Board.passes_of, Board.IsOf, Board.IsIdle, Board.HasEnded, Board.IsLawfulOutcome, inner.Closing.IsGathered};

    /// Draws a job that nobody has drawn, with its number; None if there is none left to try.
    /// It takes one atomic step for each number that it tries. Nothing in it can wait without a
    /// bound for what another pass does.
    pub fn draw(&self, pass: &mut Pass<W::Job, W::Done>) -> Option<(usize, W::Job)>
        requires idle { IsIdle self.now pass.old }
        ensures own { IsOf self.now pass.new }
        ensures some { IfSome result (λ r. Drew (jobs_of self.now) pass.old pass.new r.0 r.1) }
        ensures none { IfNone result (DrewNone (jobs_of self.now) pass.old pass.new) }

        // A finished pass draws None and takes no step.
        ensures finished_draws_none { IsTrue pass.old.finished → IsNone result }
        ensures finished_stays { IsTrue pass.old.finished → pass.new ≡ pass.old }
    {
        let count = self.table.slot_count();
        while pass.next < count {
            let k = pass.next;
            if let Some(job) = self.try_next(pass) {
                return Some((k, job));
            }
        }
        pass.finished = true;
        None
    }

    /// Hands in the result of job k, which the pass holds, by one atomic step.
    pub fn hand_in(&self, pass: &mut Pass<W::Job, W::Done>, k: usize, done: W::Done)
        requires own { IsOf self.now pass.old }
        requires holds { pass.old.holding ≡ Some k }
        requires lawful { (job : W.Job) → slice_get (jobs_of self.now) k ≡ Some job
            → W.lawful job done }
        ensures own { IsOf self.now pass.new }
        ensures handed_in { HandedIn pass.old pass.new k }
    {
        put_in(&self.table.shared, &mut pass.seat, k, done);
        self.table.shared.store::<HandIn>(&mut pass.seat, k, 2);
        pass.held = None;
    }

    /// The results, in the order of the jobs. The passes may come in any order. If there is no
    /// memory, the results are dropped.
    pub fn close(
        self,
        alloc: A,
        passes: Vec<Pass<W::Job, W::Done>, A>,
    ) -> Result<Vec<W::Done, A>, NoMemory>
        requires all { length passes.items ≡ passes_of self }
        requires ended { All (HasEnded self) passes.items }
        ensures lawful { IfOk result
            (λ results. IsLawfulOutcome W.lawful (jobs_of self) results.items) }

        // To close a board of no jobs takes no memory.
        ensures refused { OnErr result (0 < length (jobs_of self)) }

        // If there is no memory for the list of results, these hold too.
        ensures drawn_once { HoldsEachOnce (length (jobs_of self)) (drawn_by passes.items) }
        ensures handed_in_once { HoldsEachOnce (length (jobs_of self)) (handed_in_by passes.items) }
    {
        let seat = self.gather(passes);
        let Board { table } = self;
        results_of(alloc, table.close_with(seat))
    }

    // Tries the pass's next number: one `fetch_max` on its word.
    #[tactic(auto, using(crate::proofs::PassSeats::unfinished_more))]
    fn try_next(&self, pass: &mut Pass<W::Job, W::Done>) -> Option<W::Job>
        requires idle { IsIdle self.now pass.old }
        requires more { pass.old.tried < length (jobs_of self.now) }
        ensures own { IsOf self.now pass.new }
        ensures some { IfSome result
            (λ job. Drew (jobs_of self.now) pass.old pass.new pass.old.tried job) }
        ensures none { IfNone result (pass.new ≡ record pass.old { tried = pass.old.tried + 1 }) }
        ensures unfinished { pass.old.finished ≡ false }
    {
        let k = pass.next;
        let found = self.table.shared.fetch_max::<Draw>(&mut pass.seat, k, 1);
        pass.next = k + 1;
        if found == 0 {
            let job = take_out(&self.table.shared, &mut pass.seat, k);
            pass.held = Some(k);
            Some(job)
        } else {
            None
        }
    }

    // One seat, which stands for all passes.
    fn gather(
        &self,
        mut passes: Vec<Pass<W::Job, W::Done>, A>,
    ) -> Seat<Slot<W::Job, W::Done>, View<W::Job>>
        requires some_pass { 0 < length passes.items }
        requires ended { All (HasEnded self.now) passes.items }
        ensures { IsGathered self.now passes.items [] result }
    {
        let Some(first) = passes.pop() else {
            unreachable!()
        };
        let mut seat = first.into_seat();
        while let Some(pass) = passes.pop() {
            let other = pass.into_seat();
            self.table.shared.join_seat::<Unite>(&mut seat, other);
        }
        seat
    }
}
