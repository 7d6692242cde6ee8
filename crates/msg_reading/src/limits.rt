// The limits of scenarios, beside those of engines, and of scenario files.

/// How many bytes a name may have.
pub(crate) const MAX_NAME: usize = 32;

/// How many conditions a system may have.
pub(crate) const MAX_CONDITIONS: usize = 8;

/// The greatest number of `not`s round a probe.
pub(crate) const MAX_NOTS: u8 = 16;

/// How many `not`s are looked through at most. No JSON text that is read nests as deep.
pub(crate) const MOST_NESTED: u8 = 128;

/// How many rules a scenario may have.
pub(crate) const MAX_RULES: usize = 1024;

/// How many frames a scenario may have.
pub(crate) const MAX_FRAMES: usize = 10_000;

/// How many posts a frame may have.
pub(crate) const MAX_POSTS: usize = 1024;
