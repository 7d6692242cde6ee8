//! Tests of the crates below the engine, by public contracts alone. They show what no clause says:
//! that calls succeed while memory is there, what follows if it isn't, texts, threads, and that
//! the definitions are meant as they are.
#![tactic(auto)]

#[cfg(test)]
mod boards;
#[cfg(test)]
mod buffers;
#[cfg(test)]
mod equal;
pub mod meeting;
pub mod numbers;
pub mod outcome;
#[cfg(test)]
mod plans;
pub mod prefaced;
#[cfg(test)]
mod systems;
#[cfg(test)]
mod worlds;
