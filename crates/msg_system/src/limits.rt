// The limit of a turn.

/// How many ops a turn may have.
pub const MAX_OPS: usize = 64;
