//! What a scenario is: the types, resources, systems, rules and frames of a run, each part with its
//! name, and whether it can be run. And scenario files: what they are read as, and the fault of
//! each that is refused.
#![tactic(auto)]

mod kind;
mod limits;
mod name;
pub mod names;
mod read;
mod runnable;
mod scenario;

pub use kind::Kind;
pub use msg_json::{Fault, FileFault, Refusal};
pub use name::Name;
pub use read::{check_scenario, pair, read_scenario, read_sections, read_value};
pub use scenario::{Scenario, SystemSpec};
