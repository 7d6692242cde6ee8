ghost use Rattle.std.specs.Prelude.{◌≡◌, ◌≢◌, ◌-◌, ◌^◌, ◌<◌, ◌≤◌, All, IfOk, IfSome, OnErr, OnOk, [], length, take};
ghost use Rattle.std.specs.Io.KnownBytes.{Consumes, Keeps};
ghost use Rattle.msg_json.specs.Sources.{failures_after_read};

use crate::source::{ReadFault, Source};
use std::io::BufRead;
use std::marker::Model;

/// A source over a reader of std. It tells the bytes that the reader tells, and fails if the reader
/// does, or after 2^64 - 1 reads.
#[derive(Drop)]
pub struct StdSource<B: BufRead> {
    reader: B,
    failed: u64,
    left: u64,
}

impl<B: BufRead> Model for StdSource<B> {
    ghost use Rattle.msg_json.specs.Sources.{OverReader};

    ghost Value = { OverReader B };

    ghost view = { λ s. record { reader = s.reader; failures = s.failed; reads_left = s.left } };
}

impl<B: BufRead> StdSource<B> {
    /// A source that hasn't failed yet.
    pub fn new(reader: B) -> StdSource<B>
        ensures over { result.reader ≡ reader }
        ensures quiet { result.failures ≡ 0 }
        ensures fresh { result.reads_left ≡ 2 ^ 64 - 1 }
    {
        StdSource {
            reader,
            failed: 0,
            left: u64::MAX,
        }
    }
}

impl<B: BufRead> Source for StdSource<B> {
    ghost remaining = { λ s. B.remaining s.reader };

    ghost failures = { λ s. s.failures };

    ghost reads_left = { λ s. s.reads_left };

    fn read_in_line(&mut self, piece: &mut [u8]) -> Result<usize, ReadFault>
        ensures bound { IfOk result (λ n. n ≤ length piece.new) }
        ensures bytes { IfOk result (λ n. Consumes (B.remaining self.old.reader)
            (B.remaining self.new.reader) (take n piece.new)) }
        ensures end { IfSome (B.remaining self.old.reader) (λ xs.
            IfOk result (λ n. n ≡ 0 → 0 < length piece.old → xs ≡ [])) }
        ensures kept { OnErr result
            (Keeps (B.remaining self.old.reader) (B.remaining self.new.reader)) }
        ensures one_line { IfOk result (λ n. All (λ byte. byte ≢ 10) (take (n - 1) piece.new)) }
        ensures counts { self.new.failures ≡ failures_after_read self.old.failures result }
        ensures fewer { OnOk result (self.new.reads_left < self.old.reads_left) }
    {
        if self.left == 0 {
            self.failed = self.failed.saturating_add(1);
            return Err(ReadFault);
        }
        self.left -= 1;
        match read_shown(&mut self.reader, piece) {
            Ok(n) => Ok(n),
            Err(fault) => {
                self.failed = self.failed.saturating_add(1);
                Err(fault)
            }
        }
    }
}

/// Reads what a reader shows next, at most to the first line feed.
fn read_shown<B: BufRead>(reader: &mut B, piece: &mut [u8]) -> Result<usize, ReadFault>
    ensures bound { IfOk result (λ n. n ≤ length piece.new) }
    ensures bytes { IfOk result (λ n.
        Consumes (B.remaining reader.old) (B.remaining reader.new) (take n piece.new)) }
    ensures end { IfSome (B.remaining reader.old) (λ xs.
        IfOk result (λ n. n ≡ 0 → 0 < length piece.old → xs ≡ [])) }
    ensures kept { OnErr result (Keeps (B.remaining reader.old) (B.remaining reader.new)) }
    ensures one_line { IfOk result (λ n. All (λ byte. byte ≢ 10) (take (n - 1) piece.new)) }
{
    if piece.is_empty() {
        return Ok(0);
    }
    let Ok(shown) = reader.fill_buf() else {
        return Err(ReadFault);
    };
    let n = through_feed(shown).min(piece.len());
    piece[..n].copy_from_slice(&shown[..n]);
    reader.consume(n);
    Ok(n)
}

/// How many bytes stand before the first line feed, with it, or all.
fn through_feed(shown: &[u8]) -> usize
    ensures within { result ≤ length shown.now }
    ensures some { result ≡ 0 → length shown.now ≡ 0 }
    ensures one_line { All (λ byte. byte ≢ 10) (take (result - 1) shown.now) }
{
    match shown.iter().position(|byte| *byte == b'\n') {
        Some(place) => place + 1,
        None => shown.len(),
    }
}
