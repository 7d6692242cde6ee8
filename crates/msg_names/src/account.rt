use crate::Names;
use msg_frames::{Account, Backlog, WriterAccount};
use std::fmt;

/// An account with names, and what is left for its reader if that is known:
/// `gate reads breaks: start 0 got 3 missed 0 cleared 0 place 3 lost 0 unread 1`.
#[derive(Clone, Copy, Debug)]
pub struct NamedAccount<'a> {
    pub(crate) names: Names<'a>,
    pub(crate) account: Account,
    pub(crate) left: Option<Backlog>,
}

impl<'a> fmt::Display for NamedAccount<'a> {
    fn fmt<W: fmt::Write>(&self, f: &mut fmt::Formatter<W>) -> fmt::Result {
        let Account {
            system,
            of_type,
            start,
            got,
            missed,
            cleared,
            place,
        } = self.account;
        write!(
            f,
            "{} reads {}: ",
            self.names.system(system),
            self.names.of_type(of_type)
        )?;
        match start {
            Some(start) => write!(
                f,
                "start {start} got {got} missed {missed} cleared {cleared} place {place}"
            )?,
            None => f.write_str("hasn't joined")?,
        }
        match self.left {
            Some(left) => write!(f, " lost {} unread {}", left.lost, left.unread),
            None => Ok(()),
        }
    }
}

/// An account of a writer with names: `tower writes shots: refused 2`.
#[derive(Clone, Copy, Debug)]
pub struct NamedWriterAccount<'a> {
    pub(crate) names: Names<'a>,
    pub(crate) account: WriterAccount,
}

impl<'a> fmt::Display for NamedWriterAccount<'a> {
    fn fmt<W: fmt::Write>(&self, f: &mut fmt::Formatter<W>) -> fmt::Result {
        let WriterAccount {
            system,
            of_type,
            refused,
        } = self.account;
        write!(
            f,
            "{} writes {}: refused {refused}",
            self.names.system(system),
            self.names.of_type(of_type)
        )
    }
}
