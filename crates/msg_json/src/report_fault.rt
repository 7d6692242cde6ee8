ghost use Rattle.std.specs.Prelude.{◌≡◌};

use msg_buffer::NoMemory;
use msg_world::RunFault;
use thiserror::Error;

/// Why the answers of a calls file, or the report of a scenario, weren't printed to their end.
#[derive(Clone, Copy, Debug, PartialEq, Eq, Error)]
pub enum ReportFault {
    /// The engine couldn't run a frame, or couldn't make the accounts of the readers.
    #[error("run fault: {0}")]
    Run(RunFault),
    /// The sink failed.
    #[error("write fault")]
    Write,
    /// A growth was refused.
    #[error("want of memory")]
    NoMemory,
}

impl From<NoMemory> for ReportFault {
    ghost use Rattle.msg_json.specs.declared.report_fault.ReportFault.TheVariants.{NoMemory as NoRoom};

    ghost from_gives = { λ _ fault. fault ≡ NoRoom };

    fn from(_error: NoMemory) -> Self {
        ReportFault::NoMemory
    }
}
