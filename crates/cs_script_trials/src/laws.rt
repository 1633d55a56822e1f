// Copies of events, answers and operations, with ample memory.
use cs_ids::{Bytes, Caller, Ino, Obj, RefNo, Tid};
use cs_laws::{Answer, Event, ObjOp, ObjOps, RefName, Why};
use cs_snapctx::SnapContext;
use std::test::Fail;

#[test]
fn copies_print_as_their_originals(rt: HostRuntime) -> Result<(), Fail> {
    let caller = Caller::new(0).ok_or("caller")?;
    let number = RefNo::new(7).ok_or("number")?;
    let event = Event::End {
        caller,
        name: RefName::Kept(number),
    };
    let copy = event.copy(rt.alloc())?;
    let text = format!(in rt.alloc(); "{copy}")?;
    assert_eq!(rt; text.as_str(), "end 0 g7");
    let answer = Answer::Again(Why::Max).copy(rt.alloc())?;
    let text = format!(in rt.alloc(); "{answer}")?;
    assert_eq!(rt; text.as_str(), "again max");
    Ok(())
}

#[test]
fn operations_are_copied_into_a_list(rt: HostRuntime) -> Result<(), Fail> {
    let ino = Ino::new(100).ok_or("inode")?;
    let op = ObjOp {
        tid: Tid::new(1).ok_or("tid")?,
        obj: Obj { ino, index: 0 },
        off: 10,
        bytes: Bytes::from_slice(rt.alloc(), b"ab")?,
        ctx: SnapContext::empty(rt.alloc()),
    };
    let mut ops = ObjOps::new(rt.alloc());
    ops.push(op.copy(rt.alloc())?)?;
    let copy = ops.get(0).ok_or("no operation")?;
    assert_eq!(rt; copy.off, 10);
    assert_eq!(rt; copy.bytes.as_slice(), b"ab".as_slice());
    assert_eq!(rt; ops.len(), 1);
    Ok(())
}
