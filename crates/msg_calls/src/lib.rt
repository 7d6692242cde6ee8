//! Calls files: reading them, making their calls, and putting the answers into a sink.
#![tactic(auto)]

mod call;
mod calls;
mod limits;

pub use call::Call;
pub use calls::{Calls, check_calls, read_calls, read_file, run_calls};
pub use msg_json::{Fault, FileFault, Refusal, ReportFault, Sink};
