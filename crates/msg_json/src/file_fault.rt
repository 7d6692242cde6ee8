ghost use Rattle.std.specs.Prelude.{◌≡◌};
ghost use Rattle.msg_json.specs.Faults.{refusal_of};
ghost use Rattle.msg_json.specs.declared.file_fault.FileFault.TheVariants.{At as AtPlace};

use crate::fault::Fault;
use crate::refusal::Refusal;

/// Why the bytes of a file are refused.
#[derive(Clone, Copy, Debug, PartialEq, Eq)]
pub enum FileFault {
    /// They are no JSON text. They can be read up to this line, which counts from 1, and this
    /// column, which counts from 1 too and is 0 if the bytes end where the line begins.
    NotJson { line: usize, column: usize },
    /// They are a JSON text, and this is its first fault; or memory was refused.
    At(Fault),
}

impl FileFault {
    /// The refusal of the file.
    pub fn refusal(self) -> Refusal
        ensures refusal { result ≡ refusal_of self }
    {
        match self {
            FileFault::NotJson { .. } => Refusal::NotJson,
            FileFault::At(fault) => fault.reason.refusal(),
        }
    }
}

impl From<Fault> for FileFault {
    ghost from_gives = { λ fault error. error ≡ AtPlace fault };

    fn from(fault: Fault) -> Self {
        FileFault::At(fault)
    }
}
