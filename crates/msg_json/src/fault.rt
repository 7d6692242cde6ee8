// What a file is refused for, and where.
ghost use Rattle.std.specs.Prelude.{◌≡◌};
ghost use Rattle.msg_json.specs.declared.reason.Reason.TheVariants.{NoMemory as NoRoom};
ghost use Rattle.msg_json.specs.Faults as Spec;

use crate::location::{Location, PathStep};
use crate::reason::Reason;
use msg_buffer::NoMemory;
use std::alloc::AllocFailed;

/// The first fault of a JSON value: why it is refused, and where.
#[derive(Clone, Copy, Debug, PartialEq, Eq)]
pub struct Fault {
    pub reason: Reason,
    pub location: Location,
}

impl Fault {
    /// A fault of what is read itself.
    pub fn here(reason: Reason) -> Fault
        ensures fault { result ≡ Spec.fault reason }
    {
        Fault {
            reason,
            location: Location::here(),
        }
    }
}

impl From<NoMemory> for Fault {
    ghost from_gives = { λ _ fault. fault ≡ Spec.fault NoRoom };

    fn from(_error: NoMemory) -> Self {
        Fault::here(Reason::NoMemory)
    }
}

impl<T: Drop> From<AllocFailed<T>> for Fault {
    ghost from_gives = { λ _ fault. fault ≡ Spec.fault NoRoom };

    fn from(_error: AllocFailed<T>) -> Self {
        Fault::here(Reason::NoMemory)
    }
}

/// What was read at this step within what is read: a fault of it lies there.
pub fn at_step<T>(step: PathStep, read: Result<T, Fault>) -> Result<T, Fault>
    ensures at_step { result ≡ Spec.at_step step read }
{
    match read {
        Ok(read) => Ok(read),
        Err(fault) => Err(Fault {
            location: fault.location.after(step),
            ..fault
        }),
    }
}
