use crate::Names;
use msg_system::Op;
use std::fmt;

/// An op by its head, and by the names of what it works on.
#[derive(Drop)]
pub(crate) struct NamedOp<'a, V> {
    pub names: Names<'a>,
    pub op: &'a Op<V>,
}

impl<'a, V> fmt::Display for NamedOp<'a, V> {
    fn fmt<W: fmt::Write>(&self, f: &mut fmt::Formatter<W>) -> fmt::Result {
        let names = self.names;
        match self.op {
            Op::Write(t, _) => write!(f, "write {}", names.of_type(*t)),
            Op::Batch(t, _) => write!(f, "batch {}", names.of_type(*t)),
            Op::Read(t, _) => write!(f, "read {}", names.of_type(*t)),
            Op::Len(t) => write!(f, "len {}", names.of_type(*t)),
            Op::Missed(t) => write!(f, "missed {}", names.of_type(*t)),
            Op::Clear(t) => write!(f, "clear {}", names.of_type(*t)),
            Op::Forward(t, u) => write!(f, "forward {} {}", names.of_type(*t), names.of_type(*u)),
            Op::Sum(t, r) => write!(f, "sum {} {}", names.of_type(*t), names.resource(*r)),
            Op::Get(r) => write!(f, "get {}", names.resource(*r)),
            Op::Set(r, _) => write!(f, "set {}", names.resource(*r)),
            Op::Add(r, _) => write!(f, "add {}", names.resource(*r)),
            Op::Drain(t) => write!(f, "drain {}", names.of_type(*t)),
            Op::Signal => f.write_str("signal"),
        }
    }
}
