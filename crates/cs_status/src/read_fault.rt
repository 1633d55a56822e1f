// The status of an input that wasn't read.
ghost use Rattle.std.specs.Prelude.{◌≡◌};
ghost use Rattle.cs_status.specs.Statuses.{read_status};

use cs_io::ReadFault;

/// The status of a command whose input wasn't read.
pub fn read_status(fault: ReadFault) -> u8
    ensures { result ≡ read_status fault }
{
    match fault {
        ReadFault::Failed => 4,
        ReadFault::Memory => 8,
    }
}
