// A board that can't be made drops the jobs; one that can't be closed drops the results.
ghost use Rattle.std.specs.Prelude.{◌≡◌, ◌+◌, All, IfOk, length};
ghost use Rattle.msg_board.specs.Prelude.{HasEnded, IsIdle};
ghost use Rattle.msg_board.specs.Board.{IsNewPass};

use super::{draw_next, draw_none};
use crate::equal::{Have, expect_eq};
use crate::outcome::tell;
use msg_board::{Board, Pass, Work};
use std::alloc::{AllocError, Global};
use std::process::Abort;
use std::sync::atomic::{AtomicU64, Ordering};
use std::test::Fail;

/// A number that counts when it is dropped.
struct Counted<'a> {
    value: u64,
    dropped: &'a AtomicU64,
}

impl<'a> Drop for Counted<'a> {
    fn drop(self) {
        let Self { value: _, dropped } = self;
        dropped.fetch_add(1, Ordering::SeqCst);
    }
}

/// The one lawful result of a job is its successor.
struct AddOne<'a> {
    job: Counted<'a>,
}

impl<'a> Work for AddOne<'a> {
    type Job = Counted<'a>;

    type Done = Counted<'a>;

    ghost lawful = { λ j d. d.value ≡ j.value + 1 };
}

/// Three jobs, each counted as it is dropped.
fn three_jobs<'a>(alloc: Global, dropped: &'a AtomicU64) -> Result<Vec<Counted<'a>>, AllocError>
    ensures { IfOk result (λ jobs. length jobs.items ≡ 3) }
{
    Ok(vec![in alloc;
        Counted { value: 10, dropped },
        Counted { value: 20, dropped },
        Counted { value: 30, dropped },
    ]?)
}

/// The result of a drawn job: its successor. The job is dropped.
fn finish<'a>(rt: &impl Abort, job: Counted<'a>, value: u64, dropped: &'a AtomicU64) -> Counted<'a>
    ensures { result.value ≡ job.entry.value + 1 }
{
    assert!(rt; job.value == value && value < 100);
    drop(job);
    Counted {
        value: value + 1,
        dropped,
    }
}

/// What the three jobs came to.
fn expect_successors(rt: &impl Abort, results: &[Counted]) {
    assert!(rt; results.len() == 3);
    let values = (results[0].value, results[1].value, results[2].value);
    expect_eq(rt, values, (11, 21, 31));
}

/// Draws the three jobs by two passes, hands in their successors, and ends both passes: the second
/// holds a job while the first draws all others. Both draw None twice.
fn work_off<'a>(
    rt: &impl Abort,
    board: &Board<AddOne<'a>>,
    a: &mut Pass<Counted<'a>, Counted<'a>>,
    b: &mut Pass<Counted<'a>, Counted<'a>>,
    dropped: &'a AtomicU64,
)
    requires a { IsIdle board.now a.old }
    requires b { IsIdle board.now b.old }
    ensures a { HasEnded board.now a.new }
    ensures b { HasEnded board.now b.new }
{
    let first = draw_next(rt, board, a, 0);
    let second = draw_next(rt, board, b, 1);
    board.hand_in(a, 0, finish(rt, first, 10, dropped));
    expect_eq(rt, (a.holding(), b.holding()), (None, Some(1)));
    let third = draw_next(rt, board, a, 2);
    board.hand_in(a, 2, finish(rt, third, 30, dropped));
    draw_none(rt, board, a);
    draw_none(rt, board, a);
    board.hand_in(b, 1, finish(rt, second, 20, dropped));
    draw_none(rt, board, b);
    draw_none(rt, board, b);
}

/// Draws the three jobs by the two passes in turn, and ends both.
fn work_off_both<'a>(
    rt: &impl Abort,
    board: &Board<AddOne<'a>>,
    passes: &mut Vec<Pass<Counted<'a>, Counted<'a>>>,
    dropped: &'a AtomicU64,
)
    requires two { length passes.old.items ≡ 2 }
    requires fresh { All (IsNewPass board.now) passes.old.items }
    ensures two { length passes.new.items ≡ 2 }
    ensures ended { All (HasEnded board.now) passes.new.items }
{
    let mut b = passes.pop().have(rt);
    let mut a = passes.pop().have(rt);
    work_off(rt, board, &mut a, &mut b, dropped);
    passes.push(a).have(rt);
    passes.push(b).have(rt);
}

/// So many jobs, or results, were dropped.
fn expect_dropped(rt: &impl Abort, dropped: &AtomicU64, number: u64) {
    expect_eq(rt, dropped.load(Ordering::SeqCst), number);
}

/// Works off a board of these three jobs, and says whether there was no memory for the board or for
/// its results. The counts are of the dropped jobs and of the dropped results.
fn is_refused<'a>(
    rt: &impl Abort,
    alloc: Global,
    jobs: Vec<Counted<'a>>,
    jobs_dropped: &'a AtomicU64,
    results_dropped: &'a AtomicU64,
) -> bool
    requires three { length jobs.items ≡ 3 }
{
    let Ok((board, mut passes)) = Board::<AddOne>::new(alloc, jobs, 2) else {
        expect_dropped(rt, jobs_dropped, 3);
        return true;
    };
    work_off_both(rt, &board, &mut passes, results_dropped);
    expect_dropped(rt, results_dropped, 0);
    let Ok(results) = board.close(alloc, passes) else {
        expect_dropped(rt, results_dropped, 3);
        return true;
    };
    expect_successors(rt, results.as_slice());
    drop(results);
    false
}

#[test]
fn board_of_three(rt: HostRuntime) -> Result<(), Fail> {
    let rt = &rt;
    let (jobs_dropped, results_dropped) = (AtomicU64::new(0), AtomicU64::new(0));
    let jobs = three_jobs(rt.alloc(), &jobs_dropped)?;
    let is_refused = is_refused(rt, rt.alloc(), jobs, &jobs_dropped, &results_dropped);
    tell(rt, is_refused)
}
