// The limits of what words may ask for. `msg_workers` and `msg_frames`, on which this crate doesn't
// stand, have the same two numbers, as `MAX_WORKERS` and `LAST_JOIN`.

/// How many workers words may ask for.
pub(crate) const MAX_WORKERS: u32 = 64;

/// The last frame whose plan words may ask for. No system joins after it.
pub(crate) const LAST_FRAME: u32 = 10_000;
