// What a look-up finds.
use cs_ids::Ino;

/// What the leases say of an entry.
#[derive(Clone, Copy, PartialEq, Eq, Debug)]
pub enum Lookup {
    /// The entry has this inode, by a lease whose time is still to come.
    Hit(Ino),
    /// No lease is on the entry.
    Absent,
    /// The time of the lease on the entry has come: now is at or past it.
    Expired { until: u64 },
}
