// What an event brings.
use cs_ids::{Bytes, Snap};

/// The answer to an event.
#[derive(Drop)]
pub enum Answer {
    /// A snapshot was taken, and has this number.
    Snap { snap: Snap },
    /// No snapshot has the number.
    NoSnap,
    /// The snapshot was removed before.
    Gone,
    /// The snapshot was removed, and the removal has this number.
    Removed { snap: Snap, number: Snap },
    /// Bytes were written, by the write of this number, from 1 on over all objects.
    Wrote { number: u32 },
    /// So many clones were given up.
    Trimmed { count: u32 },
    /// So many clones of the object are kept.
    Clones { count: u32 },
    /// The bytes that were read.
    Bytes { bytes: Bytes },
}
