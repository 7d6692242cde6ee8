// Messages with their numbers.

/// The number of a message in its history: 0 for the first one ever written.
#[derive(Clone, Copy, Debug, PartialEq, Eq)]
pub struct MessageId(pub u64);

/// A message with its number.
#[derive(Debug, Drop)]
pub struct Instance<M> {
    pub id: MessageId,
    pub message: M,
}

/// The numbers that a batch got: `n` of them from `first` on.
#[derive(Clone, Copy, Debug, PartialEq, Eq)]
pub struct Written {
    pub first: u64,
    pub n: u64,
}
