ghost use Rattle.std.specs.Prelude.{◌≡◌, ◌&&◌, not, false};

/// What the registry keeps of signals.
#[derive(Clone, Copy, Debug, PartialEq, Eq)]
pub(crate) struct Marks {
    /// Updates wait for a signal.
    pub(crate) held: bool,
    /// A signal was given, and not spent on an update yet.
    pub(crate) pending: bool,
}

impl Marks {
    ghost use Rattle.msg_world.specs.World.{signalled_marks};

    pub(crate) fn is_waiting(self) -> bool
        ensures waiting { result ≡ (self.held && not self.pending) }
    {
        self.held && !self.pending
    }

    /// After a signal.
    pub(crate) fn signalled(self) -> Marks
        ensures signalled { result ≡ signalled_marks self }
    {
        Marks {
            pending: self.pending || self.held,
            ..self
        }
    }
}
