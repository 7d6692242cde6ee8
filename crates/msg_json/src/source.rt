ghost use Rattle.std.specs.Prelude.{◌≡◌, ◌≢◌, ◌-◌, ◌<◌, ◌≤◌, All, IfOk, IfSome, List, OnErr, OnOk, Option, [], length, take, ℕ};
ghost use Rattle.std.specs.Io.KnownBytes.{Consumes, Keeps};
ghost use Rattle.msg_json.specs.Sources.{failures_after_read};

use thiserror::Error;

/// A read that gave nothing, since the source failed.
#[derive(Clone, Copy, Debug, PartialEq, Eq, Error)]
#[error("the source failed")]
pub struct ReadFault;

/// Where lines come from. A read that gives `Ok(n)` took n bytes, and one that gives an error took
/// none, and failed.
pub trait Source {
    /// The bytes that are left, if the source tells them.
    ghost remaining: { Self → Option (List ℕ) };

    /// How often a read failed; it stays at the greatest value.
    ghost failures: { Self → ℕ };

    /// How many reads it still answers: nothing says that an input ends, but each call has to.
    ghost reads_left: { Self → ℕ };

    /// Reads what comes next into the piece, at most to the first line feed, and tells how many
    /// bytes it read. It is 0 at the end alone, unless the piece is empty.
    fn read_in_line(&mut self, piece: &mut [u8]) -> Result<usize, ReadFault>
        ensures bound { IfOk result (λ n. n ≤ length piece.new) }
        ensures bytes { IfOk result (λ n.
            Consumes (remaining self.old) (remaining self.new) (take n piece.new)) }
        ensures end { IfSome (remaining self.old) (λ xs.
            IfOk result (λ n. n ≡ 0 → 0 < length piece.old → xs ≡ [])) }
        ensures kept { OnErr result (Keeps (remaining self.old) (remaining self.new)) }
        ensures one_line { IfOk result (λ n. All (λ byte. byte ≢ 10) (take (n - 1) piece.new)) }
        ensures counts { failures self.new ≡ failures_after_read (failures self.old) result }
        ensures fewer { OnOk result (reads_left self.new < reads_left self.old) };
}
