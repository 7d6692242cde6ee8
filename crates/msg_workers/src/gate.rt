ghost use Rattle.std.specs.Prelude.{ℕ, ⊤};

/// What a worker passes just before it runs a system's job: a place to count, to trace, or to hold
/// it.
pub trait Gate: Sync {
    // What follows from its call for this worker and this system. By default that is nothing.
    ghost passed: { Self → ℕ → ℕ → Type 0 } = { λ gate worker system. ⊤ };

    /// An implementation must return: a frame waits for it. Workers are numbered from 0.
    fn pass(&self, worker: u32, system: u32)
        ensures passed { Self.passed self.now worker system };
}

/// A gate that does nothing.
#[derive(Clone, Copy, Debug)]
pub struct NoGate;

impl Gate for NoGate {
    fn pass(&self, _worker: u32, _system: u32) {}
}
