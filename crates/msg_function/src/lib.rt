//! Systems that are one function, as Bevy's function systems are: what a system reads is read at
//! once, it answers once, and what it answers is written at once. Ready ones stand in `ready`.
#![tactic(auto)]

mod either;
mod function;
mod function_system;
mod identity;
mod inbox;
mod laws;
mod never_cut;
mod outbox;
mod port;
mod ports;
pub mod ready;
mod refusals;
mod turn;

pub use either::Either;
pub use function::Function;
pub use function_system::FunctionSystem;
pub use inbox::Inbox;
pub use laws::{
    a_function_is_given_its_world, a_function_reads_first, a_functions_answer_is_written,
    a_functions_turn_is_whole,
};
pub use msg_system::NoMemory;
pub use never_cut::NeverCut;
pub use outbox::Outbox;
pub use port::Port;
