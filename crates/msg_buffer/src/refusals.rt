// Why a write was refused. A message or a batch that was passed is handed back.
use std::alloc::{Allocator, Global};
use thiserror::Error;

/// Want of memory: a growth was refused. Each call says what is known of its arguments then.
pub use std::alloc::AllocError as NoMemory;

/// Why a write was refused. Nothing of it was written.
#[derive(Debug, Drop, Error)]
pub enum WriteRefusal<M> {
    /// The write would pass the limit: too few numbers are left.
    #[error("no number is left")]
    NumbersSpent(M),
    /// The buffer could not grow.
    #[error("want of memory")]
    NoMemory(M),
}

/// Why no message of a batch was written.
#[derive(Debug, Drop, Error)]
pub enum BatchRefusal<M, A: Allocator = Global> {
    /// The batch would pass the limit.
    #[error("too few numbers are left")]
    NumbersSpent(Vec<M, A>),
    /// The buffer could not grow.
    #[error("want of memory")]
    NoMemory(Vec<M, A>),
}
