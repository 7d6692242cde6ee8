//! Engines: frames of systems over workers.
#![tactic(auto)]

mod accounts;
mod arrangement;
mod backlogs;
mod batch;
mod build_error;
mod build_refusal;
mod builder;
mod building;
mod engine;
mod engine_core;
pub mod engine_laws;
mod host;
mod job;
mod joining;
mod lender;
mod loop_fault;
mod posts;
mod replay;
mod side_by_side;
mod size;
mod spares;
mod totals;
mod writer_accounts;

pub use build_error::BuildError;
pub use build_refusal::BuildRefusal;
pub use builder::EngineBuilder;
pub use engine::{Engine, EngineOf};
pub use host::Host;
pub use loop_fault::LoopFault;
pub use msg_buffer::NoMemory;
pub use msg_frames::{
    Account, Arrangement, Backlog, Frame, Items, LAST_JOIN, Log, Outcome, Place, Totals, Turn,
    WriterAccount, laws,
};
pub use msg_workers::{Gate, MAX_WORKERS, NoGate, Runs, Workers, work};
pub use msg_world::RunFault;
pub use side_by_side::Batch;
