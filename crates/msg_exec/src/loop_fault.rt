ghost use Rattle.std.specs.Prelude.{◌≡◌};

use crate::{NoMemory, RunFault};
use thiserror::Error;

/// Why a loop ended before its host ended it.
#[derive(Clone, Copy, Debug, PartialEq, Eq, Error)]
pub enum LoopFault {
    /// A frame wasn't run.
    #[error(transparent)]
    Run(RunFault),
    /// A post of the frame that the host gave is to a type that the world hasn't got.
    #[error("a post is to a type that the world hasn't got")]
    Misfit,
    /// The host had no memory for the next frame.
    #[error("want of memory for the next frame")]
    Host,
}

impl From<RunFault> for LoopFault {
    ghost use Rattle.msg_exec.specs.declared.loop_fault.LoopFault.TheVariants.{Run};

    ghost from_gives = { λ fault error. error ≡ Run fault };

    fn from(fault: RunFault) -> Self {
        LoopFault::Run(fault)
    }
}

impl From<NoMemory> for LoopFault {
    ghost use Rattle.msg_exec.specs.declared.loop_fault.LoopFault.TheVariants.{Host};

    ghost from_gives = { λ _ error. error ≡ Host };

    fn from(_error: NoMemory) -> Self {
        LoopFault::Host
    }
}
