// What a log answers where it fails.
use cs_ids::{Failed, Memory};
use thiserror::Error;

/// Why a record wasn't appended or fetched. The log's records, and how many of them are durable, are
/// then as before.
#[derive(Clone, Copy, PartialEq, Eq, Debug, Error)]
pub enum LogFault {
    /// The log failed: its count of faults rose in this call.
    #[error("the log failed")]
    Failed,
    /// Want of memory.
    #[error("out of memory")]
    Memory,
}

impl From<Failed> for LogFault {
    ghost use Rattle.std.specs.Prelude.{◌≡◌};
    ghost use Rattle.cs_mdslog.specs.declared.answers.LogFault.TheVariants as faults;

    ghost from_gives = { λ _ fault. fault ≡ faults.Failed };

    fn from(_: Failed) -> Self {
        LogFault::Failed
    }
}

impl From<Memory> for LogFault {
    ghost use Rattle.std.specs.Prelude.{◌≡◌};
    ghost use Rattle.cs_mdslog.specs.declared.answers.LogFault.TheVariants as faults;

    ghost from_gives = { λ _ fault. fault ≡ faults.Memory };

    fn from(_: Memory) -> Self {
        LogFault::Memory
    }
}
