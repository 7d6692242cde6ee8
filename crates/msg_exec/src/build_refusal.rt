ghost use Rattle.std.specs.Prelude.{◌≡◌};

use msg_buffer::NoMemory;
use thiserror::Error;

/// Why there is no engine.
#[derive(Debug, Drop, Error)]
pub enum BuildRefusal {
    /// The lowest system that reads and writes one part: a type, or a resource.
    #[error("system {0} reads and writes one type or resource")]
    Clash(u32),
    /// The lowest system from which the rules lead back to it.
    #[error("the rules go round in a circle through system {0}")]
    Cycle(u32),
    #[error("want of memory")]
    NoMemory,
}

impl From<NoMemory> for BuildRefusal {
    ghost use Rattle.msg_exec.specs.declared.build_refusal.BuildRefusal.TheVariants.{NoMemory as RefusedMemory};

    ghost from_gives = { λ _ refusal. refusal ≡ RefusedMemory };

    fn from(_error: NoMemory) -> Self {
        BuildRefusal::NoMemory
    }
}
