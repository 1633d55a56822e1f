// The events of a script.
use cs_ids::{Bytes, Snap};
use cs_laws::At;

/// What happens to the store.
#[derive(Drop)]
pub enum Event {
    /// A snapshot is taken.
    Snap,
    /// A snapshot is removed. A script gives it a number from 1 on.
    RmSnap {
        snap: Snap,
    },
    /// Bytes are written to an object, 0 to 63, from the offset `off` on. A script gives 1 to 1,024 bytes,
    /// which end at 65,536 at the most.
    Write {
        object: u32,
        off: u32,
        bytes: Bytes,
    },
    /// The clones that serve no standing snapshot are given up.
    Trim,
    /// How many clones of an object are kept.
    Clones {
        object: u32,
    },
    /// The bytes of an object from the offset `off` on, 1 to 4,096, at a snapshot or at present. They end
    /// at 65,536 at the most.
    Read {
        object: u32,
        at: At,
        off: u32,
        len: u32,
    },
}
