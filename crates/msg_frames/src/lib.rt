//! What frames of systems are, and what holds of them: the model that an engine keeps to.
#![tactic(auto)]

mod account;
mod arrangement;
mod backlog;
mod frame;
pub mod laws;
mod limits;
mod log;
mod place;
mod totals;
mod writer_account;

pub use account::Account;
pub use arrangement::Arrangement;
pub use backlog::Backlog;
pub use frame::Frame;
pub use limits::LAST_JOIN;
pub use log::{Log, Outcome, Turn};
pub use msg_world::Items;
pub use place::Place;
pub use totals::Totals;
pub use writer_account::WriterAccount;
