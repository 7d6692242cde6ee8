use thiserror::Error;

mod command;
mod help;
mod parse;

pub use parse::parse_words;

/// What the words of the command line ask for.
#[derive(Debug, Drop)]
pub enum Action {
    /// Answer the calls file of this name, or if there is none that of standard input.
    Buffer(Option<String>),
    /// Answer the calls file of this name, and if it is refused tell where and why.
    BufferExplained(String),
    /// Run the scenario file of this name on 1 to 64 workers, and report.
    Run { file: String, workers: u32 },
    /// The same, and if it is refused tell where and why.
    RunExplained { file: String, workers: u32 },
    /// The same, and tell what each reader lost.
    RunWithLosses { file: String, workers: u32 },
    /// The same, and tell it as lines of JSON.
    RunAsJson { file: String, workers: u32 },
    /// Run the scenario file of this name on 1 to 64 workers, and go on with the frames that are
    /// lines of standard input.
    Serve { file: String, workers: u32 },
    /// Check the scenario file or calls file of this name.
    Check(String),
    /// Tell the plan of a frame of the scenario file of this name, for Graphviz or as lines.
    Plan { file: String, frame: u32, dot: bool },
}

/// Why the words give no action.
#[derive(Debug, Drop, Error)]
pub enum WordFault {
    /// The words are those of no command, or the number of workers isn't from 1 to 64, or
    /// that of the frame not from 1 to 10,000.
    #[error("bad command line")]
    Bad,
    /// The words ask for help or for the version, and this is its text.
    #[error("{0}")]
    Help(String),
    /// A growth was refused.
    #[error("want of memory")]
    NoMemory,
}
