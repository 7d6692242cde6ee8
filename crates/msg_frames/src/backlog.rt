/// What became of the messages past a reader's place.
#[derive(Clone, Copy, Debug, PartialEq, Eq)]
pub struct Backlog {
    /// How many were dropped. The reader can't get them any more, and no read has told it yet: its
    /// next one tells them as missed.
    pub lost: u64,
    /// How many are kept, and still unread.
    pub unread: u64,
}
