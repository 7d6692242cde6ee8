ghost use Rattle.std.specs.Prelude.{◌≡◌};
ghost use Rattle.msg_scenario.specs.declared.answer_fault.AnswerFault.TheVariants.{NoMemory as NoEngine, Refused as IsRefused, Report as NotReported};

use msg_json::{Refusal, ReportFault};
use msg_world::NoMemory;
use thiserror::Error;

/// Why the bytes of a file weren't answered to the end.
#[derive(Clone, Copy, Debug, PartialEq, Eq, Error)]
pub enum AnswerFault {
    /// They are refused.
    #[error("refused {0}")]
    Refused(Refusal),
    /// Memory was refused while an engine was made of the scenario.
    #[error("want of memory")]
    NoMemory,
    /// The answers or the report weren't put to their end.
    #[error("{0}")]
    Report(ReportFault),
    /// The input of lines failed: of `serve_bytes` of `msg_serve` alone.
    #[error("cannot read input")]
    Input,
}

impl From<Refusal> for AnswerFault {
    ghost from_gives = { λ refusal fault. fault ≡ IsRefused refusal };

    fn from(refusal: Refusal) -> Self {
        AnswerFault::Refused(refusal)
    }
}

impl From<NoMemory> for AnswerFault {
    ghost from_gives = { λ _ fault. fault ≡ NoEngine };

    fn from(_error: NoMemory) -> Self {
        AnswerFault::NoMemory
    }
}

impl From<ReportFault> for AnswerFault {
    ghost from_gives = { λ came fault. fault ≡ NotReported came };

    fn from(came: ReportFault) -> Self {
        AnswerFault::Report(came)
    }
}
