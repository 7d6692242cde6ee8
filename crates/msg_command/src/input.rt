ghost use Rattle.std.specs.Prelude.{◌≡◌, ◌≤◌, Err, IfOk, vec_len};
ghost use Rattle.msg_command.specs.Prelude.{GaveAtMost, GaveMoreThan, IsAllOf};

use std::alloc::Global;
use std::io::Read;
use thiserror::Error;

/// How many bytes an input may have.
pub const MAX_BYTES: usize = 4_194_304;

/// How many reads are made at most. Each but the last gives one byte or more, so an input of at
/// most `MAX_BYTES` bytes ends within them.
pub const MAX_READS: u32 = 8_000_000;

/// Why an input wasn't read.
#[derive(Clone, Copy, Debug, PartialEq, Eq, Error)]
pub enum InputFault {
    /// The reader failed, or didn't end.
    #[error("cannot read input")]
    Failed,
    /// The input has more bytes than `MAX_BYTES`.
    #[error("input too large")]
    TooLarge,
    /// A growth was refused.
    #[error("want of memory")]
    NoMemory,
}

/// All bytes of an input. The fault is the first that is met in reading.
pub fn read_all<R: Read>(alloc: Global, input: &mut R) -> Result<Vec<u8>, InputFault>
    ensures all { IfOk result (λ v. IsAllOf (R.remaining input.old) v.items) }
    ensures small { IfOk result (λ v. vec_len v ≤ MAX_BYTES) }
    ensures large { result ≡ Err InputFault.TooLarge
        → GaveMoreThan (R.remaining input.old) (R.remaining input.new) MAX_BYTES }
    ensures no_memory { result ≡ Err InputFault.NoMemory
        → GaveAtMost (R.remaining input.old) (R.remaining input.new) MAX_BYTES }
{
    let mut all = Vec::new(alloc);
    let mut buffer = [0u8; 4096];
    for _ in 0..MAX_READS {
        let Ok(n) = input.read(&mut buffer) else {
            return Err(InputFault::Failed);
        };
        if n == 0 {
            return Ok(all);
        }
        if all.len() + n > MAX_BYTES {
            return Err(InputFault::TooLarge);
        }
        if all.extend_from_slice(&buffer[..n]).is_err() {
            return Err(InputFault::NoMemory);
        }
    }
    Err(InputFault::Failed)
}
