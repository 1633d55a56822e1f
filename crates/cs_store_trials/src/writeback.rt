// Each call that allocates, with ample memory, and those about it.
use cs_ids::{Bytes, Ino, Obj, Tid};
use cs_laws::ObjOp;
use cs_snapctx::SnapContext;
use cs_writeback::{OpsInFlight, Reply, Resend};
use std::test::Fail;

#[test]
fn an_operation_is_sent(rt: HostRuntime) -> Result<(), Fail> {
    let alloc = rt.alloc();
    let tid = Tid::new(3).ok_or("no operation's number")?;
    let ino = Ino::new(100).ok_or("no file's number")?;
    let mut operations = OpsInFlight::new(alloc);
    operations.send(ObjOp {
        tid,
        obj: Obj { ino, index: 0 },
        off: 4096,
        bytes: Bytes::from_slice(alloc, b"abc".as_slice())?,
        ctx: SnapContext::empty(alloc),
    })?;
    assert!(rt; operations.deliver(tid));
    assert!(rt; operations.reply(tid) == Reply::First);
    assert!(rt; operations.resend(tid) == Resend::Late);
    Ok(())
}
