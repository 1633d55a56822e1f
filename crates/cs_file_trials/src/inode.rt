// The calls of a file that take memory, with ample memory.
ghost use Rattle.std.specs.Prelude.{◌≡◌, ◌≤◌, IfOk, [], ◌∷◌, false};
ghost use Rattle.cs_capsnap.specs.CapSnaps.{queued};
ghost use Rattle.cs_inode.specs.Inodes.{greatest_tid, new_inode};
ghost use Rattle.cs_snapctx.specs.Context.{empty_context};

use cs_flush::{FlushReport, Sent};
use cs_ids::{Bytes, FileMeta, Ino, Seq, Snap, Tid};
use cs_inode::{Inode, WriteStep};
use cs_laws::ObjOps;
use cs_snapctx::SnapContext;
use std::alloc::Global;
use std::test::Fail;

// A file to which nothing was written.
fn file(alloc: Global) -> Result<Inode, Fail>
    ensures { IfOk result (λ i. i ≡ new_inode 7 empty_context) }
{
    let ino = Ino::new(7).ok_or("ino")?;
    Ok(Inode::new(alloc, ino, SnapContext::empty(alloc)))
}

// A file to which two bytes were written from an offset on, and the operations of the write.
fn written(alloc: Global, off: u32) -> Result<(Inode, ObjOps), Fail>
    requires { off ≤ 65535 }
{
    let mut inode = file(alloc)?;
    let WriteStep::Direct(ops) = inode.write(false, off, b"ab", 9, 0, Tid::after(3))?;
    Ok((inode, ops))
}

#[test]
fn a_write_touches_two_objects(rt: HostRuntime) -> Result<(), Fail> {
    let (inode, ops) = written(rt.alloc(), 65_535)?;
    assert_eq!(rt; ops.len(), 2);
    let second = ops.get(1).ok_or("second")?;
    assert_eq!(rt; second.tid.get(), 5);
    assert_eq!(rt; second.obj.index, 1);
    assert_eq!(rt; second.bytes.as_slice(), b"b".as_slice());
    assert_eq!(rt; inode.size(), 65_537);
    Ok(())
}

// The bytes from 1 on, behind a sign, where the store has these.
fn read_from_one(alloc: Global, inode: &Inode, base: &[u8; 3]) -> Result<Bytes, Fail> {
    let mut out = Bytes::from_slice(alloc, b">")?;
    inode.read(1, 3, base, &mut out)?;
    Ok(out)
}

#[test]
fn a_read_ends_with_the_file(rt: HostRuntime) -> Result<(), Fail> {
    let (inode, _) = written(rt.alloc(), 0)?;
    let out = read_from_one(rt.alloc(), &inode, b"b\0\0")?;
    assert_eq!(rt; out.as_slice(), b">b".as_slice());
    Ok(())
}

// A context of number 1, without snapshots.
fn first_context(alloc: Global) -> Result<SnapContext, Fail> {
    let parent = SnapContext::empty(alloc);
    Ok(SnapContext::merge(alloc, &[], &[], Seq::after(0), &parent, Snap::after(0))?)
}

// A file whose mode was set before its context changed, so that it has a cap snap.
fn with_cap_snap(alloc: Global) -> Result<Inode, Fail>
    ensures snaps { IfOk result (λ i. i.snaps ≡ queued empty_context false (record { size = 0; mtime = 0; mode = 384 }) ∷ []) }
    ensures flushes { IfOk result (λ i. i.flushes.unacked ≡ []) }
{
    let context = first_context(alloc)?;
    let mut inode = file(alloc)?;
    inode.chmod(0o600);
    if context.seq() <= inode.context().seq() {
        return Err("a context of number 1")?;
    }
    inode.new_context(context)?;
    Ok(inode)
}

// It is sent in the first flush.
fn with_snap_sent(alloc: Global) -> Result<Inode, Fail>
    ensures { IfOk result (λ i. greatest_tid i ≡ 1) }
{
    let mut inode = with_cap_snap(alloc)?;
    inode.flush_snaps(Tid::after(0));
    Ok(inode)
}

// And the file's mode in the second.
fn flushed_twice(alloc: Global) -> Result<Inode, Fail> {
    let mut inode = with_snap_sent(alloc)?;
    inode.flush(Tid::after(1))?;
    Ok(inode)
}

// A flush of the new mode.
fn report(tid: Tid, follows: Seq, snap: bool) -> Result<FlushReport, Fail> {
    let meta = FileMeta {
        size: 0,
        mtime: 0,
        mode: 0o600,
    };
    Ok(FlushReport {
        ino: Ino::new(7).ok_or("ino")?,
        sent: Sent { tid, follows, meta },
        snap,
    })
}

#[test]
fn flushes_are_reported_in_order(rt: HostRuntime) -> Result<(), Fail> {
    let inode = flushed_twice(rt.alloc())?;
    let reports = inode.unacked(rt.alloc())?;
    let first = report(Tid::after(0), Seq::zero(), true)?;
    let second = report(Tid::after(1), Seq::after(0), false)?;
    assert_eq!(rt; reports.as_slice(), [first, second].as_slice());
    Ok(())
}
