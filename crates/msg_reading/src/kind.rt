ghost use Rattle.std.specs.Prelude.{◌≡◌};
ghost use Rattle.msg_reading.specs.Prelude.{fits_kind};

use msg_system::Op;

/// Which ops a system may have. Whatever it says, the system is a script of its ops.
#[derive(Clone, Copy, Debug, PartialEq, Eq)]
pub enum Kind {
    /// Any ops.
    Script,
    /// One `forward`.
    Relay,
    /// One `sum`.
    Tally,
}

impl Kind {
    /// Whether a system of this kind may have these ops.
    pub fn allows(self, ops: &[Op]) -> bool
        ensures allows { result ≡ fits_kind self ops.now }
    {
        match self {
            Kind::Script => true,
            Kind::Relay => matches!(ops, [Op::Forward(_, _)]),
            Kind::Tally => matches!(ops, [Op::Sum(_, _)]),
        }
    }
}
