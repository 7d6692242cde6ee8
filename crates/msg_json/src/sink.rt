ghost use Rattle.std.specs.Prelude.{◌≡◌, ◌≤◌, List, ℕ, Option, OnOk, OnErr, IfErr, IfOk, length};
ghost use Rattle.std.specs.Io.KnownBytes.{WriteAppends, Appends};
ghost use Rattle.msg_json.specs.Sinks.{failures_after, one_failure_more, AppendsPrefix, IsPut};

use crate::report_fault::ReportFault;
use thiserror::Error;

/// A put that took nothing.
#[derive(Clone, Copy, Debug, PartialEq, Eq, Error)]
#[error("the sink failed")]
pub struct PutFault;

/// Where bytes go. A put that gives `Ok(n)` took the first n bytes of the piece, and one that gives
/// an error took none. It failed if it gives an error, or 0 for a piece that isn't empty.
pub trait Sink {
    /// The bytes taken so far, if the sink tells them.
    ghost contents: { Self → Option (List ℕ) };

    /// How often a put failed; it stays at the greatest value.
    ghost failures: { Self → ℕ };

    /// Takes the piece or a front of it, and tells how many bytes it took.
    fn put(&mut self, piece: &[u8]) -> Result<usize, PutFault>
        ensures bound { IfOk result (λ n. n ≤ length piece.now) }
        ensures bytes { WriteAppends (contents self.old) (contents self.new) result piece.now }
        ensures counts { failures self.new ≡ failures_after (failures self.old) result piece.now };
}

/// Puts the whole piece, in as many puts as the sink wants. An error says that a put failed; the
/// sink may have taken a front of the piece then.
pub fn put_all<S: Sink>(sink: &mut S, piece: &[u8]) -> Result<(), PutFault>
    ensures ok { OnOk result (Appends (S.contents sink.old) (S.contents sink.new) piece.now) }
    ensures quiet { OnOk result (S.failures sink.new ≡ S.failures sink.old) }
    ensures prefix { OnErr result
        (AppendsPrefix (S.contents sink.old) (S.contents sink.new) piece.now) }
    ensures failed { OnErr result (S.failures sink.new ≡ one_failure_more (S.failures sink.old)) }
{
    let mut done = 0usize;
    while done < piece.len() {
        let rest = &piece[done..];
        let n = sink.put(rest)?;
        if n == 0 {
            return Err(PutFault);
        }
        done += n;
    }
    Ok(())
}

/// Puts a whole text, as `put_all` does. If the sink fails, the error is `Write`.
pub fn put_text<S: Sink>(text: &[u8], sink: &mut S) -> Result<(), ReportFault>
    ensures put { IsPut S.contents S.failures text.now result sink.old sink.new }
    ensures only_write { IfErr result (λ fault. fault ≡ ReportFault.Write) }
{
    put_all(sink, text).map_err(|_| ReportFault::Write)
}
