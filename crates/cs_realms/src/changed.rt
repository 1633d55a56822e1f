// What a record changed.
use cs_ids::{Ino, Items};
use cs_snapctx::SnapContext;

/// A realm's context that a record changed.
#[derive(Debug, Drop)]
pub struct Change {
    /// The realm's directory.
    pub realm: Ino,
    /// Its context before, or None where the realm was unknown.
    pub old: Option<SnapContext>,
    /// Its context now.
    pub new: SnapContext,
}

/// The contexts that a record changed, one `Change` for each realm.
pub type Changed = Items<Change>;
