// The call that takes memory, with ample memory.
use cs_capsnap::{CapSnaps, Ready};
use cs_ids::{FileMeta, Seq};
use cs_snapctx::SnapContext;
use std::test::Fail;

const META: FileMeta = FileMeta {
    size: 10,
    mtime: 1,
    mode: 0o644,
};

#[test]
fn a_cap_snap_is_queued(rt: HostRuntime) -> Result<(), Fail> {
    let mut snaps = CapSnaps::new(rt.alloc());
    snaps.queue(SnapContext::empty(rt.alloc()), false, META)?;
    assert_eq!(rt; snaps.ready(0), Ready::Ready(META, Seq::zero()));
    Ok(())
}
