ghost use Rattle.msg_order.specs.declared.plan_refusal.PlanRefusal.TheVariants.{NoMemory};
ghost use Rattle.std.specs.Prelude.{◌≡◌};

use std::alloc::AllocError;
use thiserror::Error;

/// Why there is no plan. `Cycle` has the lowest system from which the rules lead back to it;
/// `NoMemory` says that memory ran out.
#[derive(Debug, Drop, Error)]
pub enum PlanRefusal {
    #[error("the rules go round in a circle through system {0}")]
    Cycle(u32),
    #[error("want of memory")]
    NoMemory,
}

impl From<AllocError> for PlanRefusal {
    ghost from_gives = { λ _ refusal. refusal ≡ NoMemory };

    fn from(_error: AllocError) -> Self {
        PlanRefusal::NoMemory
    }
}
