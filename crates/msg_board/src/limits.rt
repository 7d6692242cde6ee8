// The limits of a board.

/// How many jobs a board may have.
pub const MAX_JOBS: usize = 256;

/// How many passes a board may give.
pub const MAX_PASSES: u32 = 64;
