// The text of a report, frame by frame.
mod accounts;
mod frame;
mod last_read;
mod lines;
mod op;
mod put;
mod reply;
mod run;

pub use accounts::Readers;
pub use run::report;
pub(crate) use run::{Told, report_with};
