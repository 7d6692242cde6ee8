//! All that a program calls to read scenario files and calls files and to print what comes of them,
//! but for lines of JSON: the engine of a scenario, its frames and their text in a sink, and the
//! calls that lead from a file's bytes to its text. What needs no engine stands in crates of its
//! own, which this one hands on.
#![tactic(auto)]

mod answer_fault;
mod answering;
mod building;
mod check_fault;
mod checking;
pub mod laws;
mod reports;

pub use answer_fault::AnswerFault;
pub use answering::{answer_bytes, plan_bytes, report_bytes, report_bytes_with};
pub use building::{engine_of, systems_of};
pub use check_fault::CheckFault;
pub use checking::check_bytes;
pub use msg_advice::{
    Clash, Form, Planned, clash_of, fault_lines, plan_arrangement, plan_frame, put_engine_plan,
    put_plan, shortest_cycle, unfit_lines,
};
pub use msg_calls::{Call, Calls, check_calls, read_calls, run_calls};
pub use msg_json::{
    CAPACITY, Fault, FileFault, Key, Location, MemorySink, PathStep, PutFault, Reason, Refusal,
    ReportFault, Sink, StdSink, put_all,
};
pub use msg_reading::{
    Kind, Name, Scenario, SystemSpec, check_scenario, read_scenario, read_sections,
};
pub use reports::{Readers, report};
