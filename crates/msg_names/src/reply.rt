use crate::Names;
use crate::op::NamedOp;
use msg_buffer::Written;
use msg_system::{Reply, Took};
use msg_world::Record;
use std::fmt::{self, Debug};

/// What an op was answered, as a report shows it.
#[derive(Drop)]
pub(crate) struct NamedReply<'a, V> {
    pub names: Names<'a>,
    pub reply: &'a Reply<V>,
}

/// Messages numbered from `first` on, or ` none`.
fn write_items<V: Debug, W: fmt::Write>(
    f: &mut fmt::Formatter<W>,
    names: Names,
    first: u64,
    items: &[Record<V>],
) -> fmt::Result {
    if items.is_empty() {
        return f.write_str(" none");
    }
    for (number, record) in (first..).zip(items) {
        let Record { value, writer } = record;
        write!(f, " {number}={value:?}@{}", names.writer(*writer))?;
    }
    Ok(())
}

fn write_took<V: Debug, W: fmt::Write>(
    f: &mut fmt::Formatter<W>,
    names: Names,
    took: &Took<V>,
) -> fmt::Result {
    write!(f, "missed {}:", took.missed)?;
    write_items(f, names, took.first, took.items.as_slice())
}

fn write_numbers<W: fmt::Write>(f: &mut fmt::Formatter<W>, wrote: Option<Written>) -> fmt::Result {
    match wrote {
        Some(Written { first, n }) => write!(f, "wrote {first}+{n}"),
        None => f.write_str("spent"),
    }
}

impl<'a, V: Debug> fmt::Display for NamedReply<'a, V> {
    fn fmt<W: fmt::Write>(&self, f: &mut fmt::Formatter<W>) -> fmt::Result {
        let names = self.names;
        match self.reply {
            Reply::Wrote(numbers) => write_numbers(f, Some(*numbers)),
            Reply::Spent => write_numbers(f, None),
            Reply::Read(took) => write_took(f, names, took),
            Reply::Len(n) => write!(f, "len {n}"),
            Reply::Missed(n) => write!(f, "missed {n}"),
            Reply::Cleared { missed, n, .. } => write!(f, "missed {missed} cleared {n}"),
            Reply::Forwarded { took, wrote } => {
                write_took(f, names, took)?;
                f.write_str("; ")?;
                write_numbers(f, *wrote)
            }
            Reply::Summed { took, value } => {
                write_took(f, names, took)?;
                write!(f, "; {value:?}")
            }
            Reply::Value(value) => write!(f, "value {value:?}"),
            Reply::Drained { first, items } => {
                f.write_str("drained:")?;
                write_items(f, names, *first, items.as_slice())
            }
            Reply::Signalled => f.write_str("signalled"),
            Reply::Outside(op) => {
                write!(
                    f,
                    "cut before {}, outside its access",
                    NamedOp { names, op }
                )
            }
            Reply::Full(op) => write!(f, "cut before {}, full", NamedOp { names, op }),
        }
    }
}
