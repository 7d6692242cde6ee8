//! Workers side by side: threads that draw jobs from a board and run them.
//!
//! `run_jobs` runs a list of jobs by at most so many workers, each with a number of its own, and
//! gives their results in the order of the jobs. A type says what a job is and what it may give
//! (`Work`, of `msg_board`), and how it is run (`Runs`). A gate is told of each job just before it
//! is run.
#![tactic(auto)]

mod frame_statistics;
mod gate;
mod limits;
mod place_statistics;
mod run_workers;
mod runs;
mod workers;

pub use frame_statistics::FrameStatistics;
pub use gate::{Gate, NoGate};
pub use limits::MAX_WORKERS;
pub use msg_board::NoMemory;
pub use place_statistics::PlaceStatistics;
pub use run_workers::run_jobs;
pub use runs::{Runs, work};
pub use workers::Workers;
