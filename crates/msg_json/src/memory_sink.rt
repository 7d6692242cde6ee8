ghost use Rattle.std.specs.Prelude.{◌≡◌, ◌-◌, ◌<◌, ◌≤◌, Some, [], IfOk, IsErr, length, min};
ghost use Rattle.std.specs.Io.KnownBytes.{WriteAppends};
ghost use Rattle.msg_json.specs.Sinks.{failures_after};

use crate::sink::{PutFault, Sink};
use std::marker::Model;

/// How many bytes a sink in memory has room for.
pub const CAPACITY: usize = 65536;

/// A sink in memory, of a fixed size, `CAPACITY`. A put takes what there is room for; once the sink
/// is full, a put of one byte or more fails.
#[derive(Drop)]
pub struct MemorySink {
    bytes: [u8; CAPACITY],
    len: usize,
    failed: u64,
}

impl Model for MemorySink {
    ghost use Rattle.std.specs.Prelude.{◌≤◌, take};
    ghost use Rattle.msg_json.specs.Sinks.{InMemory};
    ghost use Rattle.msg_json.specs.declared.memory_sink.TheConstants.{CAPACITY};

    ghost Value = { InMemory };

    ghost view = { λ s. record { contents = take s.len s.bytes; failures = s.failed } };

    ghost invariant = { λ s. s.len ≤ CAPACITY };
}

impl MemorySink {
    /// A sink without bytes.
    pub fn new() -> MemorySink
        ensures empty { result.contents ≡ [] }
        ensures quiet { result.failures ≡ 0 }
    {
        MemorySink {
            bytes: [0; CAPACITY],
            len: 0,
            failed: 0,
        }
    }

    /// The bytes that were taken.
    pub fn bytes(&self) -> &[u8]
        ensures bytes { result.now ≡ self.now.contents }
    {
        &self.bytes[..self.len]
    }
}

impl Sink for MemorySink {
    ghost contents = { λ s. Some s.contents };

    ghost failures = { λ s. s.failures };

    fn put(&mut self, piece: &[u8]) -> Result<usize, PutFault>
        ensures bound { IfOk result (λ n. n ≤ length piece.now) }
        ensures bytes { WriteAppends (Some self.old.contents) (Some self.new.contents)
            result piece.now }
        ensures counts { self.new.failures ≡ failures_after self.old.failures result piece.now }
        ensures takes { length self.old.contents < CAPACITY
            → result ≡ Ok (min (length piece.now) (CAPACITY - length self.old.contents)) }
        ensures nothing { piece.now ≡ [] → result ≡ Ok 0 }
        ensures full { length self.old.contents ≡ CAPACITY → 0 < length piece.now → IsErr result }
    {
        if piece.is_empty() {
            return Ok(0);
        }
        let room = CAPACITY - self.len;
        if room == 0 {
            self.failed = self.failed.saturating_add(1);
            return Err(PutFault);
        }
        let n = piece.len().min(room);
        self.bytes[self.len..self.len + n].copy_from_slice(&piece[..n]);
        self.len += n;
        Ok(n)
    }
}
