/// What a system got, missed and cleared of a type since it joined, and what it wrote to the type
/// and was refused, in messages.
#[derive(Clone, Copy, Debug, PartialEq, Eq)]
pub struct Totals {
    /// Its place as it joined; None before that.
    pub start: Option<u64>,
    pub got: u64,
    pub missed: u64,
    pub cleared: u64,
    pub refused: u64,
}
