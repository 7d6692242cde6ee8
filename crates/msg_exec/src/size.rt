// How much turns did, about as their time.
use crate::{Outcome, Turn};
use msg_system::Reply;
use msg_world::Value;

/// A turn without replies takes about as long as so many messages that are moved, and so does a
/// reply.
const OF_ONE: u64 = 16;

/// The messages that a reply tells of.
fn messages_of<V: Value>(reply: &Reply<V>) -> u64 {
    match reply {
        Reply::Wrote(wrote) => wrote.n,
        Reply::Drained { items, .. } => items.as_slice().len() as u64,
        _ => match reply.took() {
            Some(took) => took.items.as_slice().len() as u64,
            None => 0,
        },
    }
}

/// How much these turns did, from turn `from` on: they count, and their replies, and the messages
/// that these tell of.
pub(crate) fn work_estimate<V: Value>(turns: &[Turn<V>], from: usize) -> u64 {
    let mut size = 0u64;
    for i in from..turns.len() {
        size = size.saturating_add(OF_ONE);
        if let Outcome::Ran(replies) = &turns[i].outcome {
            for reply in replies.as_slice() {
                size = size
                    .saturating_add(OF_ONE)
                    .saturating_add(messages_of(reply));
            }
        }
    }
    size
}
