// Why a run stopped.
ghost use Rattle.std.specs.Prelude.{◌≡◌};
ghost use Rattle.cs_run.specs.Statuses.{run_status};

use cs_ids::Failed;
use cs_laws::StepFault;
use cs_status::WriteFault;

/// Why a run stopped.
#[derive(Clone, Copy, PartialEq, Eq, Debug)]
pub enum RunFault {
    /// The sink failed: its count of faults rose.
    Sink,
    /// The object store failed: its count of faults rose.
    Store,
    /// The metadata log failed: its count of faults rose.
    Log,
    /// Want of memory.
    Memory,
}

impl From<Failed> for RunFault {
    ghost use Rattle.std.specs.Prelude.{◌≡◌};
    ghost use Rattle.cs_run.specs.declared.run_fault.RunFault.TheVariants as faults;

    ghost from_gives = { λ _ fault. fault ≡ faults.Sink };

    fn from(_: Failed) -> Self {
        RunFault::Sink
    }
}

impl From<WriteFault> for RunFault {
    ghost use Rattle.std.specs.Prelude.{◌≡◌};
    ghost use Rattle.cs_run.specs.Statuses.{of_write};

    ghost from_gives = { λ written fault. fault ≡ of_write written };

    fn from(fault: WriteFault) -> Self {
        match fault {
            WriteFault::Sink => RunFault::Sink,
            WriteFault::Memory => RunFault::Memory,
        }
    }
}

impl From<StepFault> for RunFault {
    ghost use Rattle.std.specs.Prelude.{◌≡◌};
    ghost use Rattle.cs_run.specs.Statuses.{of_step};

    ghost from_gives = { λ stepped fault. fault ≡ of_step stepped };

    fn from(fault: StepFault) -> Self {
        match fault {
            StepFault::Store => RunFault::Store,
            StepFault::Log => RunFault::Log,
            StepFault::Memory => RunFault::Memory,
        }
    }
}

/// The status of a run: 0, or that of the fault.
pub fn run_status(ran: &Result<(), RunFault>) -> u8
    ensures { result ≡ run_status ran.now }
{
    match ran {
        Ok(()) => 0,
        Err(RunFault::Sink) => 5,
        Err(RunFault::Store) => 6,
        Err(RunFault::Log) => 7,
        Err(RunFault::Memory) => 8,
    }
}
