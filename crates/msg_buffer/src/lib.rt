//! The double-buffered messages of Bevy's `Messages<M>`: numbers, halves, cursors.
//!
//! A buffer is what is left of a history, a list of messages that only grows: a message is present
//! until the second update after it was written, or until a clear or a drain.
#![tactic(auto)]

mod batch;
mod cursor;
mod instance;
mod iter;
pub mod laws;
mod messages;
mod refusals;
mod sequence;

pub use cursor::MessageCursor;
pub use instance::{Instance, MessageId, Written};
pub use iter::MessageIter;
pub use messages::Messages;
pub use refusals::{BatchRefusal, NoMemory, WriteRefusal};
