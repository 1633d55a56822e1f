// Why something wasn't written whole.
ghost use Rattle.std.specs.Prelude.{◌≡◌};
ghost use Rattle.cs_status.specs.Statuses.{write_status};

use cs_ids::{Failed, Memory};

/// Why something wasn't written whole.
#[derive(Clone, Copy, PartialEq, Eq, Debug)]
pub enum WriteFault {
    /// The sink failed: its count of faults rose.
    Sink,
    /// Want of memory.
    Memory,
}

impl From<Failed> for WriteFault {
    ghost use Rattle.std.specs.Prelude.{◌≡◌};
    ghost use Rattle.cs_status.specs.declared.write_fault.WriteFault.TheVariants as faults;

    ghost from_gives = { λ _ fault. fault ≡ faults.Sink };

    fn from(_: Failed) -> Self {
        WriteFault::Sink
    }
}

impl From<Memory> for WriteFault {
    ghost use Rattle.std.specs.Prelude.{◌≡◌};
    ghost use Rattle.cs_status.specs.declared.write_fault.WriteFault.TheVariants as faults;

    ghost from_gives = { λ _ fault. fault ≡ faults.Memory };

    fn from(_: Memory) -> Self {
        WriteFault::Memory
    }
}

/// The status of something that was written: `whole`, or that of the fault.
pub fn write_status(whole: u8, written: &Result<(), WriteFault>) -> u8
    ensures { result ≡ write_status whole written.now }
{
    match written {
        Ok(()) => whole,
        Err(WriteFault::Sink) => 5,
        Err(WriteFault::Memory) => 8,
    }
}
