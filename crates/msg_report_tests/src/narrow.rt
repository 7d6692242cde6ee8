// A sink that takes little, or fails.
ghost use Rattle.std.specs.Prelude.{None};

use crate::equal::expect_eq;
use msg_scenario::{MemorySink, PutFault, Sink};
use std::process::Abort;

/// Takes at most `at_once` bytes at each put and `left` in all, and then fails: by taking 0 if
/// `answers_zero` is true, and else by an error.
#[derive(Drop)]
pub struct Narrow {
    taken: MemorySink,
    at_once: usize,
    left: usize,
    answers_zero: bool,
    failed: u64,
}

impl Narrow {
    pub fn new(at_once: usize, left: usize, answers_zero: bool) -> Narrow {
        Narrow {
            taken: MemorySink::new(),
            at_once,
            left,
            answers_zero,
            failed: 0,
        }
    }

    /// So many puts failed, and these bytes were taken.
    pub fn expect(&self, rt: &impl Abort, failures: u64, taken: &[u8]) {
        expect_eq(rt, (self.failed, self.taken.bytes()), (failures, taken));
    }
}

impl Sink for Narrow {
    ghost contents = { λ _. None };

    ghost failures = { λ s. s.failed };

    fn put(&mut self, piece: &[u8]) -> Result<usize, PutFault> {
        if piece.is_empty() {
            return Ok(0);
        }
        let n = piece.len().min(self.at_once).min(self.left);
        let put = self.taken.put(&piece[..n]);
        if n > 0 && put == Ok(n) {
            self.left -= n;
            return Ok(n);
        }
        self.failed = self.failed.saturating_add(1);
        if self.answers_zero {
            Ok(0)
        } else {
            Err(PutFault)
        }
    }
}
