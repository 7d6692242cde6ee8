ghost use Rattle.std.specs.Prelude.{◌≡◌};
ghost use Rattle.msg_json.specs.declared.report_fault.ReportFault.TheVariants.{NoMemory as NoRoom};
ghost use Rattle.msg_scenario.specs.declared.check_fault.CheckFault.TheVariants.{Report as NotReported};

use msg_json::{Refusal, ReportFault};
use msg_world::NoMemory;
use thiserror::Error;

/// Why the check of a file's bytes didn't end with their counts.
#[derive(Debug, Drop, Error)]
pub enum CheckFault {
    /// They are refused for this, and these lines tell where and why.
    #[error("refused {0}")]
    Refused(Refusal, Vec<u8>),
    /// The counts weren't put to their end, or there was no memory.
    #[error("{0}")]
    Report(ReportFault),
}

impl From<NoMemory> for CheckFault {
    ghost from_gives = { λ _ fault. fault ≡ NotReported NoRoom };

    fn from(_error: NoMemory) -> Self {
        CheckFault::Report(ReportFault::NoMemory)
    }
}

impl From<ReportFault> for CheckFault {
    ghost from_gives = { λ came fault. fault ≡ NotReported came };

    fn from(came: ReportFault) -> Self {
        CheckFault::Report(came)
    }
}
