//! The world that systems share, and the parts of it that are lent to a job.
//!
//! `World` has the messages of each type, the value of each resource and the registry of signals.
//! An `Access` says what a job reads and writes. `World::lend_out` moves out what it writes, `Lent`
//! shows that and what it only reads, and `World::take_back` moves it home: so jobs need no lock.
#![tactic(auto)]

mod access;
mod boxed;
mod counts;
mod items;
pub mod laws;
mod lent;
mod limits;
mod marks;
mod masks;
mod moved;
mod part;
mod record;
mod res_no;
mod run_fault;
mod slots;
mod spare_lists;
mod taken;
mod type_no;
mod value;
mod world;

pub use access::Access;
pub use counts::Counts;
pub use items::Items;
pub use lent::Lent;
pub use limits::{MAX_RESOURCES, MAX_SYSTEMS, MAX_TYPES};
pub use msg_buffer::NoMemory;
pub use part::Part;
pub use record::{HOST, Record};
pub use res_no::ResNo;
pub use run_fault::RunFault;
pub use taken::Taken;
pub use type_no::TypeNo;
pub use value::Value;
pub use world::World;
