//! What an author is told of a file that isn't run: where its first fault lies, what stands there,
//! and why it is refused; of a scenario that can't be run the ops that clash or the rules round a
//! cycle; what is remarked of one that can; and the order in which its systems take their turns in
//! one frame, with the batches, why one system is before another, who writes and reads each type,
//! and the longest chain.
#![tactic(auto)]

mod batches;
mod clash;
mod cycle;
mod edges;
mod explanation;
pub mod laws;
mod names;
mod not_json;
mod planned;
mod put;
mod refused;
mod remarks;
mod repeated;
mod subject;
mod unfit;
mod users;
mod uses;

pub use clash::{Clash, clash_of};
pub use cycle::shortest_cycle;
pub use explanation::{KnownNames, fault_lines, why};
pub use not_json::not_json_line;
pub use planned::{Planned, plan_arrangement, plan_frame};
pub use put::{Form, put_engine_plan, put_plan};
pub use refused::{refused_lines, value_lines};
pub use remarks::remarks_of;
pub use repeated::repeated_line;
pub use unfit::unfit_lines;
