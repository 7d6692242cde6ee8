// Boards of no jobs, boards that threads share, and jobs that hold boxes.
ghost use Rattle.std.specs.Prelude.{◌≡◌, ◌+◌, ◌<◌, ◌≤◌, Some, length, slice_get};
ghost use Rattle.msg_board.specs.Prelude.{HasEnded, IsIdle, IsOf, jobs_of};

mod boxes;
mod out_of_memory;

use crate::equal::{Have, expect_eq};
use msg_board::{Board, MAX_JOBS, MAX_PASSES, NoMemory, Pass, Work};
use std::alloc::{Allocator, Global};
use std::process::Abort;
use std::thread;
use std::thread::Threads;

/// Work that a thread knows how to do.
trait Runs: Work {
    fn run(job: Self::Job) -> Self::Done
        ensures { Self.lawful job result };
}

/// The one lawful result of a job is its successor.
struct AddOne;

impl Work for AddOne {
    type Job = u32;

    type Done = u64;

    ghost lawful = { λ j d. d ≡ j + 1 };
}

impl Runs for AddOne {
    fn run(job: u32) -> u64 {
        job as u64 + 1
    }
}

/// Draws jobs until none is left, and hands in the result of each.
fn work<W: Runs>(board: &Board<W>, mut pass: Pass<W::Job, W::Done>) -> Pass<W::Job, W::Done>
    requires { IsIdle board.now pass }
    ensures { HasEnded board.now result }
{
    while let Some((k, job)) = board.draw(&mut pass) {
        board.hand_in(&mut pass, k, W::run(job));
    }
    pass
}

/// Runs the jobs in `passes` threads, each with a pass of its own.
fn run_jobs<R: Threads + Sync, W: Runs + Send>(
    rt: &R,
    alloc: Global,
    jobs: Vec<W::Job>,
    passes: u32,
) -> Result<Vec<W::Done>, NoMemory>
    requires jobs { length jobs.items ≤ MAX_JOBS }
    requires passes { (0 < passes) × (passes ≤ MAX_PASSES) }
{
    let (board, passes) = Board::<W>::new(alloc, jobs, passes)?;
    let shared = &board;
    let each = |pass: Pass<W::Job, W::Done>| -> Pass<W::Job, W::Done>
        requires { IsIdle shared.now pass }
        ensures { HasEnded shared.entry.now result }
    { work(shared, pass) };
    match thread::map_vec(rt, passes, &each) {
        Ok(ended) => board.close(alloc, ended),
        Err(_) => {
            drop(board);
            Err(NoMemory)
        }
    }
}

/// Each row has how many jobs there are and how many threads. The results are the successors of
/// the jobs' numbers, in the order of the jobs.
#[test]
fn threads_draw_jobs(rt: HostRuntime) {
    let rt = &rt;
    for (n, passes) in [(100, 2), (MAX_JOBS as u32, MAX_PASSES), (1, 3)] {
        let jobs: Vec<u32> = (0..n).collect(rt.alloc()).have(rt);
        assert!(rt; jobs.len() <= MAX_JOBS);
        let results = run_jobs::<HostRuntime, AddOne>(rt, rt.alloc(), jobs, passes).have(rt);
        let want: Vec<u64> = (1..=u64::from(n)).collect(rt.alloc()).have(rt);
        expect_eq(rt, results.as_slice(), want.as_slice());
        drop((results, want));
    }
}

/// Draws the next job, which has this number, and holds it.
fn draw_next<W: Work>(
    rt: &impl Abort,
    board: &Board<W>,
    pass: &mut Pass<W::Job, W::Done>,
    number: usize,
) -> W::Job
    requires idle { IsIdle board.now pass.old }
    ensures own { IsOf board.now pass.new }
    ensures holds { pass.new.holding ≡ Some number }
    ensures job { slice_get (jobs_of board.now) number ≡ Some result }
{
    let (k, job) = board.draw(pass).have(rt);
    assert!(rt; k == number);
    let found = (pass.holding(), pass.is_finished());
    expect_eq(rt, found, (Some(number), false));
    job
}

/// Draws None, and is finished.
fn draw_none<W: Work, A: Allocator + Copy>(
    rt: &impl Abort,
    board: &Board<W, A>,
    pass: &mut Pass<W::Job, W::Done>,
)
    requires idle { IsIdle board.now pass.old }
    ensures ended { HasEnded board.now pass.new }
{
    let drawn = board.draw(pass);
    assert!(rt; drawn.is_none());
    drop(drawn);
    expect_eq(rt, (pass.is_finished(), pass.holding()), (true, None));
}

/// A board without jobs, over another allocator than `Global`.
#[test]
fn no_jobs_and_one_pass(rt: HostRuntime) {
    let rt = &rt;
    let heap = rt.alloc();
    let board = Board::<AddOne, &Global>::new(&heap, Vec::new(&heap), 1);
    let (board, mut passes) = board.have(rt);
    let mut pass = passes.pop().have(rt);
    draw_none(rt, &board, &mut pass);
    passes.push(pass).have(rt);
    let results = board.close(&heap, passes).have(rt);
    expect_eq(rt, results.len(), 0);
    drop(results);
}
