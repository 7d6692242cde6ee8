//! A board of jobs for workers that share it: each job is drawn once, and each gets one lawful
//! result, whichever way the workers' atomic steps fall between one another.
//!
//! `Board::new` puts up to `MAX_JOBS` jobs on a board and gives 1 to `MAX_PASSES` passes. A worker
//! with a pass draws jobs by `draw` and hands their results in by `hand_in`, until it draws None.
//! Neither call takes memory, and neither can wait without a bound for another worker. `close`
//! takes the board and all its passes, and gives the results in the order of the jobs.
//!
//! `specs/Law.antt` has the law of the board: what its words and slots, and what its passes know,
//! have to do with one another between any two steps.
#![tactic(auto)]

mod board;
mod law;
pub mod laws;
mod limits;
mod pass;
mod slots;
mod work;

pub use board::Board;
pub use limits::{MAX_JOBS, MAX_PASSES};
pub use pass::Pass;
pub use std::alloc::AllocError as NoMemory;
pub use work::Work;
