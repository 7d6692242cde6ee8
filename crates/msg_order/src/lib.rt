//! In which order systems run: rules, the settled order, and batches that may run side by side.
#![tactic(auto)]

mod cycles;
pub mod laws;
mod levels;
mod paths;
mod plan;
mod plan_refusal;
mod rule;
mod system_set;
mod users;

pub use cycles::lowest_on_cycle;
pub use plan::Plan;
pub use plan_refusal::PlanRefusal;
pub use rule::{Rule, first_unknown};
