ghost use Rattle.std.specs.Prelude.{codes};
ghost use Rattle.msg_names.specs.Naming.{IsNamed};

use crate::{NamedAccount, NamedLog, NamedWriterAccount};
use msg_frames::{Account, Backlog, Log, WriterAccount};
use msg_world::{HOST, ResNo, TypeNo};
use std::fmt;

/// The names of systems, types and resources, each by its number. What has no name is shown by its
/// number, as `system 3`.
///
/// ```
/// let names = Names {
///     systems: &["creep", "tower", "gate"],
///     types: &["walks", "shots", "breaks"],
///     resources: &["lives"],
/// };
/// println!(rt; "{}", names.log(&log))?;
/// ```
#[derive(Clone, Copy, Debug)]
pub struct Names<'a> {
    pub systems: &'a [&'static str],
    pub types: &'a [&'static str],
    pub resources: &'a [&'static str],
}

/// What a system, a type or a resource is called.
#[derive(Clone, Copy)]
pub enum Name<'a> {
    /// By the name that it was given.
    Given(&'a str),
    /// By what it is and its number.
    Numbered(&'static str, u32),
}

impl<'a> Name<'a> {
    fn of(kind: &'static str, names: &'a [&'static str], number: u32) -> Name<'a>
        ensures named { IsNamed kind.now names.now number result }
    {
        match names.get(number as usize) {
            Some(name) => Name::Given(name),
            None => Name::Numbered(kind, number),
        }
    }
}

impl<'a> fmt::Display for Name<'a> {
    fn fmt<W: fmt::Write>(&self, f: &mut fmt::Formatter<W>) -> fmt::Result {
        match self {
            Name::Given(name) => f.write_str(name),
            Name::Numbered(kind, number) => write!(f, "{kind} {number}"),
        }
    }
}

impl<'a> Names<'a> {
    /// A log, a line for each reply and for each turn that was skipped.
    pub fn log<V>(self, log: &'a Log<V>) -> NamedLog<'a, V> {
        NamedLog { names: self, log }
    }

    /// An account of a reader, with what is left for it (`EngineOf::backlog`) if that is known.
    pub fn account(self, account: Account, left: Option<Backlog>) -> NamedAccount<'a> {
        NamedAccount {
            names: self,
            account,
            left,
        }
    }

    /// An account of a writer: what it was refused.
    pub fn writer_account(self, account: WriterAccount) -> NamedWriterAccount<'a> {
        NamedWriterAccount {
            names: self,
            account,
        }
    }

    /// What a system is called.
    pub fn system(self, number: u32) -> Name<'a>
        ensures named { IsNamed (codes "system") self.entry.systems.now number result }
    {
        Name::of("system", self.systems, number)
    }

    /// Who wrote a message: a system, or the host.
    pub(crate) fn writer(self, number: u32) -> Name<'a> {
        if number == HOST {
            Name::Given("host")
        } else {
            self.system(number)
        }
    }

    /// What a type is called.
    pub fn of_type(self, t: TypeNo) -> Name<'a>
        ensures named { IsNamed (codes "type") self.entry.types.now t result }
    {
        Name::of("type", self.types, t.number())
    }

    /// What a resource is called.
    pub fn resource(self, r: ResNo) -> Name<'a>
        ensures named { IsNamed (codes "resource") self.entry.resources.now r result }
    {
        Name::of("resource", self.resources, r.number())
    }
}
