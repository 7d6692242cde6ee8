// Worked runs that `run_frame` keeps, each on 1, 2, 7 and 64 workers.
use crate::expecting::{Told, expect_frames};
use crate::making::{Act, Does, NUMBERS, scripted_engine};
use msg_order::Rule;
use std::process::Abort;
use std::thread::Threads;

/// Scripts of these acts under these rules, over types of ten numbers, and their first frames.
pub struct Case {
    pub acts: &'static [Act],
    pub rules: &'static [Rule],
    pub frames: &'static [Told<'static>],
}

/// Runs the case on each of `NUMBERS` workers.
fn expect_case<R: Threads + Sync + Abort + AllocGlobal>(rt: &R, case: &Case) {
    for number in NUMBERS {
        let engine = scripted_engine(rt, rt.alloc(), 10, case.acts, case.rules);
        expect_frames(rt, engine, number, case.frames);
    }
}

/// A reader, and after it a writer: what is written is read a frame later.
pub const LAG: &Case = &Case {
    acts: &[(0, Does::Reads), (0, Does::Writes(5))],
    rules: &[Rule {
        earlier: 0,
        later: 1,
    }],
    frames: &[
        (&[], "[0 read from 0:][1 wrote 1 from 0]"),
        (&[], "[0 read from 0: 1=5][1 wrote 1 from 1]"),
    ],
};

#[test]
fn one_frames_lag(rt: HostRuntime) {
    expect_case(&rt, LAG);
}

/// A writer, and two readers that may run side by side: on two workers they draw from a board. In
/// each frame both readers are given what was written in it.
pub const BOARD: &Case = &Case {
    acts: &[(0, Does::Writes(1)), (0, Does::Reads), (0, Does::Reads)],
    rules: &[],
    frames: &[
        (
            &[],
            "[0 wrote 1 from 0][1 read from 0: 0=1][2 read from 0: 0=1]",
        ),
        (
            &[],
            "[0 wrote 1 from 1][1 read from 1: 0=1][2 read from 1: 0=1]",
        ),
    ],
};

/// In each frame the host posts, both writers write after it, and all four messages are read.
#[test]
fn host_and_two_writers(rt: HostRuntime) {
    const CASE: &Case = &Case {
        acts: &[
            (0, Does::Writes(1)),
            (0, Does::WritesFrom(2, 4)),
            (0, Does::Reads),
        ],
        rules: &[],
        frames: &[
            (
                &[9],
                " wrote 1 from 0[0 wrote 1 from 1][1 wrote 2 from 2]\
                 [2 read from 0: host=9 0=1 1=2 1=3]",
            ),
            (
                &[8],
                " wrote 1 from 4[0 wrote 1 from 5][1 wrote 2 from 6]\
                 [2 read from 4: host=8 0=1 1=2 1=3]",
            ),
        ],
    };
    expect_case(&rt, CASE);
}

/// Rules that are against the order of addition.
pub const CONTRADICTORY: &Case = &Case {
    acts: &[
        (0, Does::Writes(1)),
        (1, Does::Writes(2)),
        (1, Does::Reads),
        (0, Does::Reads),
    ],
    rules: &[
        Rule {
            earlier: 3,
            later: 1,
        },
        Rule {
            earlier: 2,
            later: 0,
        },
    ],
    frames: &[(
        &[],
        "[2 read from 0:][0 wrote 1 from 0][3 read from 0: 0=1][1 wrote 1 from 0]",
    )],
};

#[test]
fn contradictory_order(rt: HostRuntime) {
    expect_case(&rt, CONTRADICTORY);
}
