// Why one line isn't read.
ghost use Rattle.std.specs.Prelude.{◌≡◌};
ghost use Rattle.cs_trim_script.specs.Reading.{fault_at};

use crate::ParseFault;
use cs_ids::Memory;
use cs_laws::{Kind, ScriptFault};

/// Why a line's event wasn't read. Fields that take no memory answer the bare kind, and `?` makes it
/// one of these.
#[derive(Clone, Copy)]
pub enum LineFault {
    /// What is wrong with the line.
    Kind(Kind),
    /// Want of memory.
    Memory,
}

impl LineFault {
    /// The fault of a script whose line of this number isn't read.
    pub fn at_line(self, line: u32) -> ParseFault
        ensures { result ≡ fault_at line self }
    {
        match self {
            LineFault::Kind(kind) => ParseFault::Fault(ScriptFault { line, kind }),
            LineFault::Memory => ParseFault::Memory,
        }
    }
}

impl From<Kind> for LineFault {
    ghost use Rattle.std.specs.Prelude.{◌≡◌};
    ghost use Rattle.cs_trim_script.specs.declared.line_fault.LineFault.TheVariants as faults;

    ghost from_gives = { λ kind fault. fault ≡ faults.Kind kind };

    fn from(kind: Kind) -> Self {
        LineFault::Kind(kind)
    }
}

impl From<Memory> for LineFault {
    ghost use Rattle.std.specs.Prelude.{◌≡◌};
    ghost use Rattle.cs_trim_script.specs.declared.line_fault.LineFault.TheVariants as faults;

    ghost from_gives = { λ _ fault. fault ≡ faults.Memory };

    fn from(_: Memory) -> Self {
        LineFault::Memory
    }
}
