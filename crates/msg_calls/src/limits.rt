// The limits of calls files.

/// How many calls a calls file may have.
pub(crate) const MAX_CALLS: usize = 10_000;

/// How many cursors a calls file may use, the first one included.
pub(crate) const MAX_CURSORS: u32 = 64;
