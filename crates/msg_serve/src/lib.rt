//! A scenario whose frames go on as lines of an input: a list of posts is a frame, and each line is
//! answered by a line of JSON.
#![tactic(auto)]

mod from_bytes;
mod input;
pub mod laws;
mod limits;
mod request;
mod serve_fault;
mod server;
mod serving;
mod tracing;

pub use from_bytes::{serve_bytes, trace_bytes};
pub use input::{Line, read_line};
pub use limits::MAX_LINE;
pub use request::{Request, read_request};
pub use serve_fault::ServeFault;
pub use serving::serve_scenario;
pub use tracing::trace_scenario;
