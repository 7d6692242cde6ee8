use crate::{InputFault, WordFault};
use msg_json::{Refusal, ReportFault};
use thiserror::Error;

mod print;

pub use print::print_fault;

/// What ended the program.
#[derive(Debug, Drop, Error)]
pub enum MainFault {
    /// The command line gives no action.
    #[error("{0}")]
    Words(#[from] WordFault),
    /// The input wasn't read.
    #[error("{0}")]
    Input(#[from] InputFault),
    /// The file was refused.
    #[error("refused {0}")]
    Refused(#[from] Refusal),
    /// The file was refused, and these lines tell where and why.
    #[error("refused {0}")]
    CheckFailed(Refusal, Vec<u8>),
    /// Memory was refused while an engine was made of a scenario, or for lines that are read ahead.
    #[error("want of memory")]
    Built,
    /// The answers or the report weren't printed to their end.
    #[error("{0}")]
    Report(#[from] ReportFault),
}
