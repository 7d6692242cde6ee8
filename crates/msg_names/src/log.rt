use crate::Names;
use crate::reply::NamedReply;
use msg_frames::{Log, Outcome, Turn};
use msg_system::Reply;
use std::fmt::{self, Debug};

/// A log with names: the replies to the host's posts, and each turn, a line for each reply.
///
/// ```text
/// host wrote 0+1
/// kitchen missed 0: 0=3@host
/// waiter skipped
/// ```
#[derive(Drop)]
pub struct NamedLog<'a, V> {
    pub(crate) names: Names<'a>,
    pub(crate) log: &'a Log<V>,
}

/// Writes a line for each reply to someone.
fn write_replies<V: Debug, D: fmt::Display, W: fmt::Write>(
    f: &mut fmt::Formatter<W>,
    names: Names,
    who: &D,
    replies: &[Reply<V>],
) -> fmt::Result {
    for reply in replies {
        writeln!(f, "{who} {}", NamedReply { names, reply })?;
    }
    Ok(())
}

fn write_turn<V: Debug, W: fmt::Write>(
    f: &mut fmt::Formatter<W>,
    names: Names,
    turn: &Turn<V>,
) -> fmt::Result {
    let system = names.system(turn.system);
    match &turn.outcome {
        Outcome::Skipped => writeln!(f, "{system} skipped"),
        Outcome::Ran(replies) => write_replies(f, names, &system, replies.as_slice()),
    }
}

impl<'a, V: Debug> fmt::Display for NamedLog<'a, V> {
    fn fmt<W: fmt::Write>(&self, f: &mut fmt::Formatter<W>) -> fmt::Result {
        let Log { posts, turns } = self.log;
        write_replies(f, self.names, &"host", posts.as_slice())?;
        for turn in turns.as_slice() {
            write_turn(f, self.names, turn)?;
        }
        Ok(())
    }
}
