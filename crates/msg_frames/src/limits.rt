// The limit of joining.

/// The last frame that a system may join with.
pub const LAST_JOIN: u32 = 10_000;
