ghost use Rattle.std.specs.Prelude.{◌≡◌, ◌≤◌, ℕ, Result, IfOk, length};
ghost use Rattle.std.specs.{Io.KnownBytes.WriteAppends, declared.io.Error.Error};
ghost use Rattle.msg_json.specs.Sinks.{IsAnsweredAs, failures_after};

use crate::sink::{PutFault, Sink};
use std::io::Write;
use std::marker::Model;

/// A sink over a writer of std. It tells the bytes that the writer tells.
#[derive(Drop)]
pub struct StdSink<W: Write> {
    writer: W,
    failed: u64,
}

impl<W: Write> Model for StdSink<W> {
    ghost use Rattle.msg_json.specs.Sinks.{OverWriter};

    ghost Value = { OverWriter W };

    ghost view = { λ s. record { writer = s.writer; failures = s.failed } };
}

impl<W: Write> StdSink<W> {
    /// A sink that hasn't failed yet.
    pub fn new(writer: W) -> StdSink<W>
        ensures over { result.writer ≡ writer }
        ensures quiet { result.failures ≡ 0 }
    {
        StdSink { writer, failed: 0 }
    }
}

impl<W: Write> Sink for StdSink<W> {
    ghost contents = { λ s. W.contents s.writer };

    ghost failures = { λ s. s.failures };

    fn put(&mut self, piece: &[u8]) -> Result<usize, PutFault>
        ensures bound { IfOk result (λ n. n ≤ length piece.now) }
        ensures bytes { WriteAppends (W.contents self.old.writer) (W.contents self.new.writer)
            result piece.now }
        ensures counts { self.new.failures ≡ failures_after self.old.failures result piece.now }

        // The answer is the writer's: the number that it took, and `PutFault` for any error.
        ensures answer { (came : Result ℕ Error) × IsAnsweredAs came result
            × WriteAppends (W.contents self.old.writer) (W.contents self.new.writer)
            came piece.now }
    {
        match self.writer.write(piece) {
            Ok(n) => {
                if n == 0 && !piece.is_empty() {
                    self.failed = self.failed.saturating_add(1);
                }
                Ok(n)
            }
            Err(_) => {
                self.failed = self.failed.saturating_add(1);
                Err(PutFault)
            }
        }
    }
}
