use crate::limits::MAX_SYSTEMS;

/// The writer of messages that the host posts. Systems write as their number in order of addition.
pub const HOST: u32 = MAX_SYSTEMS as u32;

/// A message of a world: a value, and its writer, which is the number of a system or `HOST`.
#[derive(Clone, Copy, Debug, PartialEq, Eq)]
pub struct Record<V = i64> {
    pub writer: u32,
    pub value: V,
}
