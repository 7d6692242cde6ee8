//! What frames came to, what readers were given and why a line is refused, each as one line of
//! JSON.
#![tactic(auto)]

mod accounts;
mod frame;
mod list;
mod op;
mod refused;
mod reply;
mod turn;
mod world;

pub use accounts::add_readers_line;
pub use frame::add_frame_line;
pub use refused::{add_not_json_line, add_refused_line, add_too_long_line};
