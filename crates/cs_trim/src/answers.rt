// What a store answers.
use cs_ids::Snap;

/// What became of a removal.
#[derive(Clone, Copy, PartialEq, Eq, Debug)]
pub enum Removed {
    /// No snapshot has the number.
    NoSnap,
    /// The snapshot was removed before.
    Gone,
    /// The snapshot was removed, and the removal has this number.
    Removed { number: Snap },
}

/// What became of a read.
#[derive(Clone, Copy, PartialEq, Eq, Debug)]
pub enum TrimRead {
    /// The bytes were read.
    Read,
    /// No snapshot has the number.
    NoSnap,
    /// The snapshot was removed.
    Gone,
}
