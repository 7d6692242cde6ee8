ghost use Rattle.std.specs.Prelude.{◌≡◌};

use msg_json::{ReadFault, ReportFault};
use msg_scenario::AnswerFault;
use msg_world::NoMemory;
use thiserror::Error;

/// Why lines weren't answered to their end.
#[derive(Clone, Copy, Debug, PartialEq, Eq, Error)]
pub enum ServeFault {
    /// The input failed.
    #[error("cannot read input")]
    Input,
    /// A frame couldn't be run, or an answer wasn't put to its end.
    #[error("{0}")]
    Report(ReportFault),
}

impl From<ReportFault> for ServeFault {
    ghost use Rattle.msg_serve.specs.declared.serve_fault.ServeFault.TheVariants.{Report as NotPut};

    ghost from_gives = { λ came fault. fault ≡ NotPut came };

    fn from(came: ReportFault) -> Self {
        ServeFault::Report(came)
    }
}

impl From<ReadFault> for ServeFault {
    ghost use Rattle.msg_serve.specs.declared.serve_fault.ServeFault.TheVariants.{Input as NotRead};

    ghost from_gives = { λ _ fault. fault ≡ NotRead };

    fn from(_error: ReadFault) -> Self {
        ServeFault::Input
    }
}

impl From<NoMemory> for ServeFault {
    ghost use Rattle.msg_serve.specs.declared.serve_fault.ServeFault.TheVariants.{Report as NotPut};
    ghost use Rattle.msg_json.specs.declared.report_fault.ReportFault.TheVariants.{NoMemory as NoRoom};

    ghost from_gives = { λ _ fault. fault ≡ NotPut NoRoom };

    fn from(_error: NoMemory) -> Self {
        ServeFault::Report(ReportFault::NoMemory)
    }
}

impl From<ServeFault> for AnswerFault {
    ghost use Rattle.msg_serve.specs.Served.{served_fault};

    ghost from_gives = { λ came fault. fault ≡ served_fault came };

    fn from(came: ServeFault) -> Self {
        match came {
            ServeFault::Input => AnswerFault::Input,
            ServeFault::Report(fault) => AnswerFault::Report(fault),
        }
    }
}
