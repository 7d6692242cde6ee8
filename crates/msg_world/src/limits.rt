// The limits of a world. Masks of 64 bits stand for its types and resources, so there are no more.

/// How many message types a world may have.
pub const MAX_TYPES: usize = 64;

/// How many resources a world may have.
pub const MAX_RESOURCES: usize = 64;

/// How many systems may share a world. They write as their numbers, which are below this.
pub const MAX_SYSTEMS: usize = 256;

const _: () = prove!(MAX_TYPES <= 64);

const _: () = prove!(MAX_RESOURCES <= 64);
