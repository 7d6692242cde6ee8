// The limits that calls files and scenario files have in common.

/// The greatest limit of a type, a buffer or a read.
pub const MAX_LIMIT: u32 = 1_000_000;

/// How many values a batch may have.
pub const MAX_VALUES: usize = 1024;
