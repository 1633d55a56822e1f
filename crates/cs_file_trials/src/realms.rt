// Each call that takes memory, with ample memory, also those of contexts, lists and records, which
// these calls make.
use cs_ids::{Ino, Seq, Snap};
use cs_realms::Realms;
use cs_snapctx::{RealmRecord, SnapList};
use std::alloc::Global;
use std::test::Fail;

// A directory's record with one snapshot of its own.
fn record(alloc: Global, realm: Ino, parent: Option<Ino>, own: Snap) -> Result<RealmRecord, Fail> {
    let mut snaps = SnapList::new(alloc);
    snaps.push(own)?;
    Ok(RealmRecord {
        realm,
        parent,
        since: Snap::after(0),
        own_seq: Seq::zero(),
        own: snaps,
        prior: SnapList::new(alloc),
    })
}

// The first record of a directory, and the next of the root above it.
#[test]
fn records_change_contexts(rt: HostRuntime) -> Result<(), Fail> {
    let root = Ino::new(1).ok_or("the root")?;
    let below = Ino::new(2).ok_or("a directory")?;
    let first = Snap::after(0);
    let second = Snap::after(1);
    let mut realms = Realms::new(rt.alloc())?;
    realms.apply(&record(rt.alloc(), below, Some(root), first)?)?;
    let changed = realms.apply(&record(rt.alloc(), root, None, second)?)?;
    assert_eq!(rt; changed.len(), 2);
    let covering = realms.context(below).ok_or("a realm")?;
    assert_eq!(rt; covering.snaps(), [second, first].as_slice());
    Ok(())
}
