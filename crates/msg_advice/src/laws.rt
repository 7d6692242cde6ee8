//! Laws of plans. Calling one makes its fact available to the caller's proof; it does nothing at
//! run time.
ghost use Rattle.msg_advice.specs.Prelude.{ArrangementsTellPlans, FramesRunAsPlanned};

use msg_world::Value;

/// Each frame has its turns in the order that its plan tells.
#[tactic(auto, using(crate::proofs::Orders::as_planned))]
pub fn frames_run_as_planned<V: Value>()
    ensures law { FramesRunAsPlanned V.values }
{}

/// What `plan_arrangement` plans of the arrangement of an engine (`EngineOf::arrangement`) is the
/// plan of its frames.
#[tactic(auto, using(crate::proofs::Orders::arrangement_tells))]
pub fn arrangements_tell_plans<V: Value>()
    ensures law { ArrangementsTellPlans V.values }
{}
