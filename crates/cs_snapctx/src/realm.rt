// What the server tells of a realm.
ghost use Rattle.std.specs.Prelude.{◌≡◌, IfOk};

use crate::SnapList;
use cs_ids::{Ino, Memory, Seq, Snap};

/// A realm as the server's record tells it. A realm is a directory whose snapshots cover all below
/// it; the root directory is one from the start, and any other from its first snapshot on.
#[derive(PartialEq, Eq, Debug, Drop)]
pub struct RealmRecord {
    /// The directory.
    pub realm: Ino,
    /// The nearest realm above it. The root alone has none.
    pub parent: Option<Ino>,
    /// The least number that a snapshot of the parent must have to cover this realm.
    pub since: Snap,
    /// The number of the last snapshot or removal in this realm, or 0 before the first.
    pub own_seq: Seq,
    /// The realm's own snapshots.
    pub own: SnapList,
    /// The snapshots of its parents of earlier times.
    pub prior: SnapList,
}

impl RealmRecord {
    /// The same record once more.
    pub fn copy(&self) -> Result<Self, Memory>
        ensures { IfOk result (λ r. r ≡ self.now) }
    {
        Ok(RealmRecord {
            realm: self.realm,
            parent: self.parent,
            since: self.since,
            own_seq: self.own_seq,
            own: self.own.copy()?,
            prior: self.prior.copy()?,
        })
    }
}
