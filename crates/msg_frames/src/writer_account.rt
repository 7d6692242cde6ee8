use msg_world::TypeNo;

/// What became of what a system wrote to a type, since it joined.
#[derive(Clone, Copy, Debug, PartialEq, Eq)]
pub struct WriterAccount {
    /// The system's number.
    pub system: u32,
    /// The type that the system writes.
    pub of_type: TypeNo,
    /// How many of its messages weren't written, since too few numbers of the type were left: the
    /// reply to each such write says `Spent`. `u64::MAX` stands for that many or more.
    pub refused: u64,
}
