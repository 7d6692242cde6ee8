//! The command line of `msgrun`, the reading of its input, and the lines that its faults print.
#![tactic(auto)]

mod fault;
mod input;
mod limits;
mod words;

pub use fault::{MainFault, print_fault};
pub use input::{InputFault, MAX_BYTES, read_all};
pub use words::{Action, WordFault, parse_words};
