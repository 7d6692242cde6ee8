//! What systems do to a world: ops, programs, conditions, and the interface of boxed systems.
#![tactic(auto)]

mod behavior;
mod behavior_system;
mod condition;
mod cursors;
mod guard;
mod job;
mod laws;
mod lending;
mod limits;
mod numbered;
mod one_op;
mod op;
mod op_parts;
mod program;
mod reading;
mod relay;
mod reply;
mod scripted;
mod start;
mod steps;
mod system;
mod tally;

pub use behavior::Behavior;
pub use behavior_system::BehaviorSystem;
pub use condition::{Condition, Probe};
pub use cursors::Cursors;
pub use guard::Guard;
pub use job::{fits_world, job_access};
pub use laws::{
    a_program_is_its_ops_in_order, a_programs_turn_is_whole, nothing_else_is_used,
    one_op_is_a_turn, open_loans_cover, turns_within_bounds_are_whole, what_is_given_back_stands,
};
pub use lending::added_up;
pub use limits::MAX_OPS;
pub use msg_buffer::NoMemory;
pub use msg_world::{Access, Items};
pub use numbered::Numbered;
pub use op::Op;
pub use program::Program;
pub use relay::Relay;
pub use reply::{Refused, Reply, Took, brought};
pub use scripted::Scripted;
pub use start::Start;
pub use system::{System, SystemOf};
pub use tally::Tally;
