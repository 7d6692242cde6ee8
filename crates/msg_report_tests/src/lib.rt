//! Tests of files, reports and command lines, by public contracts alone.
#![tactic(auto)]

#[cfg(test)]
mod calls;
#[cfg(test)]
mod command;
#[cfg(test)]
mod equal;
pub mod from_bytes;
#[cfg(test)]
mod named;
#[cfg(test)]
mod names;
#[cfg(test)]
mod narrow;
#[cfg(test)]
mod reports;
#[cfg(test)]
mod scenario_files;
#[cfg(test)]
mod serving;
#[cfg(test)]
mod sparing;
#[cfg(test)]
mod std_sinks;
#[cfg(test)]
mod texts;
