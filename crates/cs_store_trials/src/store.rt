// Each call of a store that takes memory, with ample memory; and which calls of the faulty form fail.
ghost use Rattle.std.specs.Prelude.{◌≡◌, IfOk};

use cs_ids::{Bytes, Failed, Ino, Obj, Seq, Snap, Tid};
use cs_laws::{At, ObjOp};
use cs_objstore::{Applied, FaultyStore, MemStore, ObjStore, StoreFault};
use cs_snapctx::SnapContext;
use std::alloc::Global;
use std::test::Fail;

fn object() -> Result<Obj, Fail> {
    let ino = Ino::new(100).ok_or("inode")?;
    Ok(Obj { ino, index: 0 })
}

// A context of this number, without snapshots.
fn context(alloc: Global, seq: Seq) -> Result<SnapContext, Fail> {
    let parent = SnapContext::empty(alloc);
    Ok(SnapContext::merge(alloc, &[], &[], seq, &parent, Snap::after(0))?)
}

// Two bytes from an offset on.
fn operation(alloc: Global, tid: Tid, seq: Seq, off: u32, bytes: &[u8; 2]) -> Result<ObjOp, Fail>
    ensures off { IfOk result (λ op. op.off ≡ off) }
    ensures bytes { IfOk result (λ op. op.bytes ≡ bytes.now) }
{
    let obj = object()?;
    let ctx = context(alloc, seq)?;
    Ok(ObjOp {
        tid,
        obj,
        off,
        bytes: Bytes::from_slice(alloc, bytes)?,
        ctx,
    })
}

// Two operations through the bound, the second under a later context.
fn write_both<S: ObjStore>(alloc: Global, store: &mut S) -> Result<(Applied, Applied), Fail> {
    let first = store.apply(&operation(alloc, Tid::after(0), Seq::zero(), 10, b"ab")?)?;
    let second = store.apply(&operation(alloc, Tid::after(1), Seq::after(1), 10, b"cd")?)?;
    Ok((first, second))
}

// The four bytes from 9 on.
fn read_four<S: ObjStore>(store: &mut S, at: At) -> Result<[u8; 4], Fail> {
    let mut out = *b"....";
    store.read(object()?, at, 9, &mut out)?;
    Ok(out)
}

#[test]
fn reads_the_head_and_a_snapshot(rt: HostRuntime) -> Result<(), Fail> {
    let mut store = MemStore::new(rt.alloc());
    let _ = write_both(rt.alloc(), &mut store)?;
    let snap = Snap::after(0);
    assert_eq!(rt; read_four(&mut store, At::Head)?, *b"\0cd\0");
    assert_eq!(rt; read_four(&mut store, At::Snap(snap))?, *b"\0ab\0");
    Ok(())
}

#[test]
fn the_second_call_fails(rt: HostRuntime) -> Result<(), Fail> {
    let mut store = FaultyStore::new(rt.alloc(), &[2])?;
    let op = operation(rt.alloc(), Tid::after(0), Seq::zero(), 10, b"ab")?;
    let mut out = *b"....";
    assert_eq!(rt; store.apply(&op), Ok(Applied::New));
    assert_eq!(rt; store.read(object()?, At::Head, 9, &mut out), Err(Failed));
    assert_eq!(rt; store.apply(&op), Ok(Applied::Dup));
    assert_eq!(rt; store.ops().len(), 1);
    Ok(())
}

// The writes of one reference, the last of them under a snapshot.
#[test]
fn an_object_is_cloned_before_a_later_context(rt: HostRuntime) -> Result<(), Fail> {
    let mut store = MemStore::new(rt.alloc());
    let _ = store.apply(&operation(rt.alloc(), Tid::after(0), Seq::zero(), 0, b"aa")?)?;
    let _ = store.apply(&operation(rt.alloc(), Tid::after(1), Seq::zero(), 2, b"bb")?)?;
    assert_eq!(rt; store.clones(object()?), 0);
    let _ = store.apply(&operation(rt.alloc(), Tid::after(2), Seq::after(0), 0, b"zz")?)?;
    assert_eq!(rt; store.clones(object()?), 1);
    let snap = Snap::after(0);
    let mut out = *b"....";
    store.read(object()?, At::Snap(snap), 0, &mut out)?;
    assert_eq!(rt; out, *b"aabb");
    store.read(object()?, At::Head, 0, &mut out)?;
    assert_eq!(rt; out, *b"zzbb");
    Ok(())
}
