use msg_world::Items;

/// One call on a buffer of `i64` and its cursors. A cursor is named by its number, from 0 on in the
/// order of their making.
#[derive(Debug, Drop)]
pub enum Call {
    /// Writes a message of this value.
    Write(i64),
    /// Writes a message of each value, all or none.
    Batch(Items<i64>),
    /// Makes each message one update older; those written two updates ago are dropped.
    Update,
    /// Reads by this cursor, at most so many messages if a limit is given.
    Read(u32, Option<u32>),
    /// Asks how many messages were dropped before this cursor read them.
    Missed(u32),
    /// Asks how many messages this cursor has still to read.
    Len(u32),
    /// Takes this cursor past all messages.
    Clear(u32),
    /// Makes a cursor at place 0.
    Cursor,
    /// Makes a cursor at the count.
    CursorCurrent,
    /// Asks for the message of this number.
    Get(u64),
    /// Asks for the messages written since the last update.
    Current,
    /// Asks for the number of the oldest message that is kept; the count if none is.
    Oldest,
    /// Asks how many messages were ever written.
    Count,
    /// Asks how many messages the buffer keeps.
    Total,
    /// Takes all messages out, and gives them.
    Drain,
    /// Drops all messages.
    ClearAll,
}
