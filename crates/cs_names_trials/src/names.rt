// The calls of names, with ample memory.
ghost use Rattle.std.specs.Prelude.{◌≡◌, ◌+◌, ◌<◌, ◌≤◌, IfOk, OnOk};
ghost use Rattle.cs_names.specs.Setup.{IsSetUp};

use cs_ids::{Ino, Name};
use cs_laws::{NameList, OpAnswer, ReqOp};
use cs_names::{Names, SetupStep};
use std::alloc::Global;
use std::process::Abort;
use std::test::Fail;

fn ino(number: u64) -> Result<Ino, Fail>
    ensures { IfOk result (λ i. i ≡ number) }
{
    Ok(Ino::new(number).ok_or("no inode's number")?)
}

fn name(rt: &impl Abort, alloc: Global, bytes: &[u8]) -> Result<Name, Fail> {
    assert!(rt; cs_ids::is_name(bytes));
    Ok(Name::from_slice(alloc, bytes)?)
}

// The names, each with its inode behind an equals sign.
fn printed(alloc: Global, names: &NameList) -> Result<Vec<u8>, Fail> {
    let mut text = Vec::new(alloc);
    for item in names.as_slice() {
        text.extend_from_slice(item.name.as_slice())?;
        text.extend_from_slice(format!(in alloc; "={} ", item.ino.get())?.as_bytes())?;
    }
    Ok(text)
}

// What a line does that makes an inode in a directory.
fn set_up(names: &mut Names, number: u64, dir: u64, is_dir: bool) -> Result<SetupStep, Fail>
    requires least { 2 ≤ number }
    requires greatest { number ≤ 9999 }
    requires first { IsSetUp names.old }
    ensures { OnOk result (IsSetUp names.new) }
{
    let inode = ino(number)?;
    let parent = ino(dir)?;
    Ok(names.setup(inode, parent, is_dir)?)
}

// The names in a directory, printed.
fn listed(alloc: Global, names: &Names, dir: u64) -> Result<Vec<u8>, Fail> {
    let list = names.list(ino(dir)?)?.ok_or("no directory")?;
    printed(alloc, &list)
}

#[test]
fn lines_make_directories_and_files(rt: HostRuntime) -> Result<(), Fail> {
    let mut names = Names::new(rt.alloc())?;
    assert_eq!(rt; set_up(&mut names, 100, 1, false)?, SetupStep::Made);
    assert_eq!(rt; set_up(&mut names, 9, 1, true)?, SetupStep::Made);
    assert_eq!(rt; set_up(&mut names, 10, 1, true)?, SetupStep::Made);
    let list = listed(rt.alloc(), &names, 1)?;
    assert_eq!(rt; list.as_slice(), b"d10=10 d9=9 f100=100 ".as_slice());
    let list = listed(rt.alloc(), &names, 9)?;
    assert!(rt; list.is_empty());
    Ok(())
}

#[test]
fn a_line_may_be_refused(rt: HostRuntime) -> Result<(), Fail> {
    let mut names = Names::new(rt.alloc())?;
    assert_eq!(rt; set_up(&mut names, 100, 1, false)?, SetupStep::Made);
    assert_eq!(rt; set_up(&mut names, 100, 9, true)?, SetupStep::Exists);
    assert_eq!(rt; set_up(&mut names, 7, 100, true)?, SetupStep::NoDir);
    assert!(rt; names.has_dir(ino(1)?));
    assert!(rt; !names.has_dir(ino(100)?));
    assert!(rt; names.list(ino(100)?)?.is_none());
    Ok(())
}

// The answer to an operation, before which operations have made at most `made` inodes.
fn applied(names: &mut Names, made: u64, op: ReqOp) -> Result<OpAnswer, Fail>
    requires few { names.old.made ≤ made }
    requires room { made < 1000 }
    ensures { OnOk result (names.new.made ≤ made + 1) }
{
    Ok(names.apply(&op, None)?)
}

fn create(rt: &impl Abort, alloc: Global, dir: u64, word: &[u8]) -> Result<ReqOp, Fail> {
    Ok(ReqOp::Create {
        dir: ino(dir)?,
        name: name(rt, alloc, word)?,
    })
}

fn unlink(rt: &impl Abort, alloc: Global, dir: u64, word: &[u8]) -> Result<ReqOp, Fail> {
    Ok(ReqOp::Unlink {
        dir: ino(dir)?,
        name: name(rt, alloc, word)?,
    })
}

fn look_up(rt: &impl Abort, alloc: Global, dir: u64, word: &[u8]) -> Result<ReqOp, Fail> {
    Ok(ReqOp::Lookup {
        dir: ino(dir)?,
        name: name(rt, alloc, word)?,
    })
}

fn rename(
    rt: &impl Abort,
    alloc: Global,
    dir: u64,
    word: &[u8],
    new: &[u8],
) -> Result<ReqOp, Fail> {
    Ok(ReqOp::Rename {
        dir: ino(dir)?,
        name: name(rt, alloc, word)?,
        new_name: name(rt, alloc, new)?,
    })
}

// Names in which operations made directory 10,000, named a.
fn with_directory(rt: &impl Abort, alloc: Global) -> Result<Names, Fail>
    ensures { IfOk result (λ n. n.made ≤ 1) }
{
    let mut names = Names::new(alloc)?;
    let op = ReqOp::Mkdir {
        dir: ino(1)?,
        name: name(rt, alloc, b"a")?,
    };
    assert!(rt; applied(&mut names, 0, op)? == OpAnswer::Made(ino(10_000)?));
    Ok(names)
}

// Nothing is done where an answer is told alone.
#[test]
fn an_answer_is_told(rt: HostRuntime) -> Result<(), Fail> {
    let alloc = rt.alloc();
    let names = with_directory(&rt, alloc)?;
    let op = create(&rt, alloc, 10_000, b"x")?;
    assert!(rt; names.answer(&op)? == OpAnswer::Made(ino(10_001)?));
    assert!(rt; names.answer(&op)? == OpAnswer::Made(ino(10_001)?));
    Ok(())
}

#[test]
fn a_file_has_another_name(rt: HostRuntime) -> Result<(), Fail> {
    let alloc = rt.alloc();
    let mut names = with_directory(&rt, alloc)?;
    let op = create(&rt, alloc, 10_000, b"x")?;
    assert!(rt; applied(&mut names, 1, op)? == OpAnswer::Made(ino(10_001)?));
    let op = rename(&rt, alloc, 10_000, b"x", b"x")?;
    assert!(rt; applied(&mut names, 2, op)? == OpAnswer::Exists);
    let op = rename(&rt, alloc, 10_000, b"x", b"y")?;
    assert!(rt; applied(&mut names, 3, op)? == OpAnswer::Moved);
    let op = look_up(&rt, alloc, 10_000, b"y")?;
    assert!(rt; applied(&mut names, 4, op)? == OpAnswer::Found(ino(10_001)?));
    Ok(())
}

#[test]
fn what_is_taken_out_is_missing(rt: HostRuntime) -> Result<(), Fail> {
    let alloc = rt.alloc();
    let mut names = with_directory(&rt, alloc)?;
    let op = create(&rt, alloc, 10_000, b"x")?;
    assert!(rt; applied(&mut names, 1, op)? == OpAnswer::Made(ino(10_001)?));
    let op = unlink(&rt, alloc, 1, b"a")?;
    assert!(rt; applied(&mut names, 2, op)? == OpAnswer::NotEmpty);
    let op = unlink(&rt, alloc, 10_000, b"x")?;
    assert!(rt; applied(&mut names, 3, op)? == OpAnswer::Gone);
    let op = look_up(&rt, alloc, 10_001, b"x")?;
    assert!(rt; applied(&mut names, 4, op)? == OpAnswer::NotDir);
    Ok(())
}
