//! Tests of engines, by public contracts alone. They show what no clause says: that calls succeed
//! while memory is there, how many threads run a batch, what stands after want of memory, and that
//! a frame is meant as it is defined.
#![tactic(auto)]

#[cfg(test)]
mod boxes;
#[cfg(test)]
mod building;
#[cfg(test)]
mod cases;
pub mod clients;
#[cfg(test)]
mod deciding;
#[cfg(test)]
mod equal;
#[cfg(test)]
mod expecting;
#[cfg(test)]
mod frames;
#[cfg(test)]
mod functions;
#[cfg(test)]
mod late;
#[cfg(test)]
mod limits;
#[cfg(test)]
mod loops;
#[cfg(test)]
mod making;
#[cfg(test)]
mod many_values;
#[cfg(test)]
mod out_of_memory;
pub mod pairs;
#[cfg(test)]
mod prefaced;
#[cfg(test)]
mod replay;
#[cfg(test)]
mod spoiled;
#[cfg(test)]
mod told;
