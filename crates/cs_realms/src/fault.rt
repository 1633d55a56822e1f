// Why a record isn't taken.
use cs_ids::{Ino, Memory};
use thiserror::Error;

/// Why a realm's record isn't taken.
#[derive(Clone, Copy, PartialEq, Eq, Debug, Error)]
pub enum RealmFault {
    /// The record names a parent that is no known realm.
    #[error("a realm's parent is unknown")]
    NoParent { parent: Ino },
    /// Want of memory.
    #[error("out of memory")]
    Memory,
}

impl From<Memory> for RealmFault {
    ghost use Rattle.std.specs.Prelude.{◌≡◌};
    ghost use Rattle.cs_realms.specs.declared.fault.RealmFault.TheVariants as faults;

    ghost from_gives = { λ _ f. f ≡ faults.Memory };

    fn from(_: Memory) -> Self {
        RealmFault::Memory
    }
}
