// A calls file, read from the bytes of a JSON text.
ghost use Rattle.std.specs.Prelude.{◌≡◌, ◌≢◌, Ok, Err, IfOk, IfErr};
ghost use Rattle.serde_json.specs.Data.{Data};
ghost use Rattle.msg_json.specs.Prelude.{IsFaultOf, IsJsonOf, IsNotJson, IsRefusedFor};
ghost use Rattle.msg_calls.specs.Prelude.{file_of};

use crate::calls::Calls;
use msg_json::json::parse;
use msg_json::{FileFault, Refusal};
use std::alloc::Global;

mod call;
mod file;
mod part;

pub use file::read_file;

/// The calls file that the bytes are a JSON text of, or the refusal for the first fault.
pub fn read_calls(alloc: Global, bytes: &[u8]) -> Result<Calls, Refusal>
    ensures ok { IfOk result (λ file. (d : Data) × IsJsonOf bytes.now d × (file_of d ≡ Ok file)) }
    ensures not_json { result ≡ Err Refusal.NotJson → IsNotJson bytes.now }
    ensures refused { IfErr result (λ refusal.
        refusal ≢ Refusal.NotJson → refusal ≢ Refusal.NoMemory
        → (d : Data) × IsJsonOf bytes.now d × IsRefusedFor (λ e. file_of d ≡ Err e) refusal) }
{
    match check_calls(alloc, bytes) {
        Ok(calls) => Ok(calls),
        Err(fault) => Err(fault.refusal()),
    }
}

/// The calls file that the bytes are a JSON text of, or the first fault in reading order.
pub fn check_calls(alloc: Global, bytes: &[u8]) -> Result<Calls, FileFault>
    ensures ok { IfOk result (λ file. (d : Data) × IsJsonOf bytes.now d × (file_of d ≡ Ok file)) }
    ensures fault { IfErr result (IsFaultOf (λ d e. file_of d ≡ Err e) bytes.now) }
{
    let value = parse(alloc, bytes)?;
    Ok(read_file(alloc, &value)?)
}
