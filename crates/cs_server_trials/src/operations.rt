// Operations that requests ask for.
use crate::numbers::ino;
use cs_ids::Name;
use cs_laws::ReqOp;
use std::alloc::Global;
use std::process::Abort;
use std::test::Fail;

pub fn name(rt: &impl Abort, alloc: Global, bytes: &[u8]) -> Result<Name, Fail> {
    assert!(rt; cs_ids::is_name(bytes));
    Ok(Name::from_slice(alloc, bytes)?)
}

pub fn mkdir(rt: &impl Abort, alloc: Global, dir: u64, word: &[u8]) -> Result<ReqOp, Fail> {
    Ok(ReqOp::Mkdir {
        dir: ino(dir)?,
        name: name(rt, alloc, word)?,
    })
}

pub fn create(rt: &impl Abort, alloc: Global, dir: u64, word: &[u8]) -> Result<ReqOp, Fail> {
    Ok(ReqOp::Create {
        dir: ino(dir)?,
        name: name(rt, alloc, word)?,
    })
}

pub fn unlink(rt: &impl Abort, alloc: Global, dir: u64, word: &[u8]) -> Result<ReqOp, Fail> {
    Ok(ReqOp::Unlink {
        dir: ino(dir)?,
        name: name(rt, alloc, word)?,
    })
}

pub fn rename(
    rt: &impl Abort,
    alloc: Global,
    dir: u64,
    word: &[u8],
    new: &[u8],
) -> Result<ReqOp, Fail> {
    Ok(ReqOp::Rename {
        dir: ino(dir)?,
        name: name(rt, alloc, word)?,
        new_name: name(rt, alloc, new)?,
    })
}

pub fn look_up(rt: &impl Abort, alloc: Global, dir: u64, word: &[u8]) -> Result<ReqOp, Fail> {
    Ok(ReqOp::Lookup {
        dir: ino(dir)?,
        name: name(rt, alloc, word)?,
    })
}
