//! What files are read with: the parts of JSON values, the first fault of a value with its place,
//! and the refusals of files; and the sources that lines are read from. And what texts are printed
//! with: numbers in decimal at the end of a text, and the sinks that texts are put into.
#![tactic(auto)]

pub mod fault;
mod file_fault;
pub mod json;
mod limits;
mod location;
mod memory_sink;
pub mod numbers;
pub mod numerals;
mod reason;
mod refusal;
mod report_fault;
mod sink;
mod source;
mod std_sink;
mod std_source;

pub use fault::Fault;
pub use file_fault::FileFault;
pub use limits::{MAX_LIMIT, MAX_VALUES};
pub use location::{
    CALLS_KEYS, Key, Location, PathStep, SCENARIO_KEYS, SYSTEM_KEYS, is_calls_file,
};
pub use memory_sink::{CAPACITY, MemorySink};
pub use msg_buffer::NoMemory;
pub use msg_world::RunFault;
pub use reason::Reason;
pub use refusal::Refusal;
pub use report_fault::ReportFault;
pub use sink::{PutFault, Sink, put_all, put_text};
pub use source::{ReadFault, Source};
pub use std_sink::StdSink;
pub use std_source::StdSource;
