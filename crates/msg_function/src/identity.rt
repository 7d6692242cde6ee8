// Who reads and writes.
use msg_system::Cursors;

/// The number that a system writes as, and its cursors.
#[derive(Drop)]
pub(crate) struct Identity {
    pub(crate) writer: u32,
    pub(crate) cursors: Cursors,
}
