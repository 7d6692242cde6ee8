use msg_world::TypeNo;

/// What a reader was given since it joined. A reader is a system and a type that it reads. The
/// start, `got`, `missed` and `cleared` add up to the place.
#[derive(Clone, Copy, Debug, PartialEq, Eq)]
pub struct Account {
    /// The system's number.
    pub system: u32,
    /// The type that the system reads.
    pub of_type: TypeNo,
    /// Its place as it joined; None before that.
    pub start: Option<u64>,
    /// How many messages its reads, forwards and sums gave it.
    pub got: u64,
    /// How many were dropped unread, as its reads and clears said.
    pub missed: u64,
    /// How many it cleared.
    pub cleared: u64,
    /// The number of the first message that it wasn't given yet.
    pub place: u64,
}
