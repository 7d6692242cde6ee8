ghost use Rattle.std.specs.Prelude.{◌≡◌};

use crate::{BuildRefusal, NoMemory};
use msg_frames::LAST_JOIN;
use msg_order::Rule;
use msg_world::MAX_SYSTEMS;
use thiserror::Error;

/// Why a builder refused what it was given, or made no engine of it.
#[derive(Debug, Drop, Error)]
pub enum BuildError {
    /// There are as many systems as an engine may have.
    #[error("there are {} systems, and an engine has no more", MAX_SYSTEMS)]
    Full,
    /// The frame that a system was to join with.
    #[error("a system can't join with frame {}, but with one from 1 to {}", .0, LAST_JOIN)]
    BadJoin(u32),
    /// The lowest system that, or a condition of which, reads or writes what the world hasn't got.
    #[error("system {0} or a condition of it reads or writes what the world hasn't got")]
    Misfit(u32),
    /// The first rule that names a system which isn't there.
    #[error("no system {}, or no system {}, which a rule names", .0.earlier, .0.later)]
    UnknownSystem(Rule),
    /// What `EngineOf::new` refuses.
    #[error(transparent)]
    Refused(BuildRefusal),
}

impl From<BuildRefusal> for BuildError {
    ghost use Rattle.msg_exec.specs.declared.build_error.BuildError.TheVariants.{Refused};

    ghost from_gives = { λ refusal error. error ≡ Refused refusal };

    fn from(refusal: BuildRefusal) -> Self {
        BuildError::Refused(refusal)
    }
}

impl From<NoMemory> for BuildError {
    ghost use Rattle.msg_exec.specs.{declared.build_error.BuildError.TheVariants.Refused, declared.build_refusal.BuildRefusal.TheVariants.NoMemory as RefusedMemory};

    ghost from_gives = { λ _ error. error ≡ Refused RefusedMemory };

    fn from(_error: NoMemory) -> Self {
        BuildError::Refused(BuildRefusal::NoMemory)
    }
}
