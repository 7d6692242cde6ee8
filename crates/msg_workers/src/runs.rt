// What a worker does: it draws jobs from a board, runs them, and hands in what they gave.
ghost use Rattle.std.specs.Prelude.{◌≡◌, ◌-◌, ◌^◌, ◌≤◌, ℕ, Some, length, min, slice_get};
ghost use Rattle.msg_board.specs.Prelude.{HandedIn, HasEnded, IsIdle, IsOf, jobs_of};
ghost use Rattle.msg_workers.specs.{Work.EachMay, Work.EachNewIs, inner.Workers.HasWorked, inner.Workers.IsFirstDraw};

use crate::Gate;
use msg_board::{Board, Pass, Work};
use std::alloc::Global;

/// Work that a worker knows how to do.
pub trait Runs: Work {
    // What has to hold of a job before it is run.
    ghost may: { Self.Job → Type 0 };

    // The number of the job's system.
    ghost system_of: { Self.Job → ℕ };

    /// The number of the job's system, which the gate is told.
    fn number(job: &Self::Job) -> u32
        ensures number { result ≡ Self.system_of job.now };

    /// Runs the job, and gives its result.
    fn run(alloc: Global, job: Self::Job) -> Self::Done
        requires may { Self.may job }
        ensures lawful { Self.lawful job result };
}

/// Runs the job that the pass drew last, once the gate is passed, and hands in what it gave.
fn run_drawn<W: Runs, G: Gate>(
    alloc: Global,
    board: &Board<W>,
    gate: &G,
    worker: u32,
    drawn: (usize, W::Job),
    pass: &mut Pass<W::Job, W::Done>,
)
    requires own { IsOf board.now pass.old }
    requires holds { pass.old.holding ≡ Some drawn.0 }
    requires there { slice_get (jobs_of board.now) drawn.0 ≡ Some drawn.1 }
    requires may { W.may drawn.1 }
    ensures own { IsOf board.now pass.new }
    ensures handed_in { HandedIn pass.old pass.new drawn.0 }
    ensures gate_passed { G.passed gate.now worker (W.system_of drawn.1) }
{
    let (k, job) = drawn;
    gate.pass(worker, W::number(&job));
    board.hand_in(pass, k, W::run(alloc, job));
}

/// One worker's part of the jobs: it draws them until there is none left. Gives how many it ran.
pub fn work<W: Runs, G: Gate>(
    alloc: Global,
    board: &Board<W>,
    pass: &mut Pass<W::Job, W::Done>,
    worker: u32,
    gate: &G,
) -> u32
    requires idle { IsIdle board.now pass.old }
    requires may { EachMay W.may (jobs_of board.now) }
    ensures ran { result
        ≡ min (length pass.new.drawn - length pass.old.drawn) (2 ^ 32 - 1) }
    ensures more { length pass.old.drawn ≤ length pass.new.drawn }
    ensures ended { HasEnded board.now pass.new }
    ensures gate_passed { EachNewIs (λ job. G.passed gate.now worker (W.system_of job))
        (jobs_of board.now) pass.old.drawn pass.new.drawn }
{
    let mut ran = 0u32;
    while let Some(drawn) = board.draw(pass) {
        run_drawn(alloc, board, gate, worker, drawn, pass);
        ran = ran.saturating_add(1);
    }
    ran
}

/// The part of a worker from what it drew first: it runs that job, and draws on. Gives how many it
/// ran.
pub(crate) fn work_on<W: Runs, G: Gate>(
    alloc: Global,
    board: &Board<W>,
    gate: &G,
    worker: u32,
    first: Option<(usize, W::Job)>,
    pass: &mut Pass<W::Job, W::Done>,
) -> u32
    requires first { IsFirstDraw board.now pass.old first }
    requires may { EachMay W.may (jobs_of board.now) }
    ensures ran { result ≡ min (length pass.new.drawn) (2 ^ 32 - 1) }
    ensures worked { HasWorked board.now (λ job. G.passed gate.now worker (W.system_of job))
        pass.new }
{
    let Some(first) = first else {
        return 0;
    };
    run_drawn(alloc, board, gate, worker, first, pass);
    work(alloc, board, pass, worker, gate).saturating_add(1)
}
