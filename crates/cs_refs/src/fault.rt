// Why no reference begins.
use std::alloc::AllocFailed;

/// Why no reference begins.
#[derive(Clone, Copy, PartialEq, Eq, Debug)]
pub enum RefFault {
    /// As many references live as can live at one moment.
    Full { live: u32 },
    /// Want of memory.
    Memory,
}

impl<T: Drop> From<AllocFailed<T>> for RefFault {
    ghost use Rattle.std.specs.Prelude.{◌≡◌};
    ghost use Rattle.cs_refs.specs.declared.fault.RefFault.TheVariants as faults;

    ghost from_gives = { λ _ f. f ≡ faults.Memory };

    fn from(_: AllocFailed<T>) -> Self {
        RefFault::Memory
    }
}
