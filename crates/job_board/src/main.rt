//! Work of one's own on the board: threads draw numbers, and hand in their squares.
#![tactic(auto)]

ghost use Rattle.std.specs.Prelude.{◌≡◌, ◌*◌, ◌<◌, ◌≤◌, IfOk, length, map};
ghost use Rattle.msg_board.specs.Prelude.{HasEnded, IsIdle};

use msg_board::{Board, MAX_JOBS, MAX_PASSES, NoMemory, Pass, Work};
use std::alloc::Global;
use std::thread;
use std::thread::Threads;

/// The one lawful result of a number is its square.
struct Squaring;

impl Work for Squaring {
    type Job = u32;

    type Done = u64;

    ghost lawful = { λ number square. square ≡ number * number };
}

/// One thread's part: it draws numbers until there is none left.
fn work(board: &Board<Squaring>, mut pass: Pass<u32, u64>) -> Pass<u32, u64>
    requires idle { IsIdle board.now pass }
    ensures ended { HasEnded board.now result }
{
    while let Some((k, number)) = board.draw(&mut pass) {
        let number = u64::from(number);
        board.hand_in(&mut pass, k, number * number);
    }
    pass
}

/// The squares of these numbers, in their order, made by `threads` threads.
fn squares<R: Threads + Sync>(
    rt: &R,
    alloc: Global,
    numbers: Vec<u32>,
    threads: u32,
) -> Result<Vec<u64>, NoMemory>
    requires few { length numbers.items ≤ MAX_JOBS }
    requires threads { (0 < threads) × (threads ≤ MAX_PASSES) }
    ensures squares { IfOk result
        (λ all. all.items ≡ map (λ number. number * number) numbers.items) }
{
    let (board, passes) = Board::<Squaring>::new(alloc, numbers, threads)?;
    let shared = &board;
    let each = |pass: Pass<u32, u64>| -> Pass<u32, u64>
        requires { IsIdle shared.now pass }
        ensures { HasEnded shared.entry.now result }
    { work(shared, pass) };
    let ended = thread::map_vec(rt, passes, &each)?;
    board.close(alloc, ended)
}

fn main(rt: HostRuntime) -> anyhow::Result<()> {
    let alloc = rt.alloc();
    let numbers = vec![in alloc; 3, 1, 4, 1, 5, 9, 2, 6, 5, 35, 65_536]?;
    for square in squares(&rt, alloc, numbers, 4)? {
        println!(rt; "{square}")?;
    }
    Ok(())
}
