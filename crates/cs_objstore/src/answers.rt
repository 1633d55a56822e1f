// What a store answers.
use cs_ids::{Failed, Memory};
use thiserror::Error;

/// What became of an operation that was handed in.
#[derive(Clone, Copy, PartialEq, Eq, Debug)]
pub enum Applied {
    /// It was applied.
    New,
    /// One of its number had been applied before, so it wasn't applied.
    Dup,
}

/// Why an operation wasn't applied. The list of operations is then as before.
#[derive(Clone, Copy, PartialEq, Eq, Debug, Error)]
pub enum StoreFault {
    /// The store failed: its count of faults rose in this call.
    #[error("the store failed")]
    Failed,
    /// Want of memory.
    #[error("out of memory")]
    Memory,
}

impl From<Failed> for StoreFault {
    ghost use Rattle.std.specs.Prelude.{◌≡◌};
    ghost use Rattle.cs_objstore.specs.declared.answers.StoreFault.TheVariants as faults;

    ghost from_gives = { λ _ fault. fault ≡ faults.Failed };

    fn from(_: Failed) -> Self {
        StoreFault::Failed
    }
}

impl From<Memory> for StoreFault {
    ghost use Rattle.std.specs.Prelude.{◌≡◌};
    ghost use Rattle.cs_objstore.specs.declared.answers.StoreFault.TheVariants as faults;

    ghost from_gives = { λ _ fault. fault ≡ faults.Memory };

    fn from(_: Memory) -> Self {
        StoreFault::Memory
    }
}
