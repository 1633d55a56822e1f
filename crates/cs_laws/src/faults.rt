// What can be wrong with a script, and what can stop a step.
use cs_ids::Memory;
use thiserror::Error;

/// What is wrong with a line of a script. The tests of a line are made in this order: its length; the
/// header, on line 1; its first word; its fields from the left; a further word; its place.
#[derive(Clone, Copy, PartialEq, Eq, Debug)]
pub enum Kind {
    /// Line 1 isn't `ceph-script 1`.
    Header,
    /// A word is unknown or missing, or is misspelt and no number.
    Word,
    /// A number is misspelt: it has a sign, a leading zero or another character than a digit.
    Number,
    /// A number is outside its range.
    Range,
    /// A further word follows.
    Extra,
    /// A `dir` or `file` line stands after an event of another kind.
    Late,
    /// The line has over 4,096 bytes.
    Long,
    /// The line's form is one that this version doesn't build yet.
    NotBuilt,
}

/// The first bad line of a script, counted from 1 over all lines, and what is wrong with it.
#[derive(Clone, Copy, PartialEq, Eq, Debug)]
pub struct ScriptFault {
    pub line: u32,
    pub kind: Kind,
}

/// Why a step gave no answer.
#[derive(Clone, Copy, PartialEq, Eq, Debug, Error)]
pub enum StepFault {
    /// The store failed: its count of faults rose in this step.
    #[error("the object store failed")]
    Store,
    /// The log failed: its count of faults rose in this step.
    #[error("the metadata log failed")]
    Log,
    /// Want of memory.
    #[error("out of memory")]
    Memory,
}

impl From<Memory> for StepFault {
    ghost use Rattle.std.specs.Prelude.{◌≡◌};
    ghost use Rattle.cs_laws.specs.declared.faults.StepFault.TheVariants as faults;

    ghost from_gives = { λ _ f. f ≡ faults.Memory };

    fn from(_: Memory) -> Self {
        StepFault::Memory
    }
}
