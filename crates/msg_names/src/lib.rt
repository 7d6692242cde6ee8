//! Names for what an engine tells. An engine knows its systems, types and resources by numbers;
//! with `Names` a log and an account are shown as lines for a person.
#![tactic(auto)]

mod account;
mod log;
mod names;
mod op;
mod reply;

pub use account::{NamedAccount, NamedWriterAccount};
pub use log::NamedLog;
pub use names::{Name, Names};
