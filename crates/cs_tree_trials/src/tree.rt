// The calls of directories that take memory, with ample memory.
use cs_ids::Ino;
use cs_tree::{DirPath, Directories};
use std::process::Abort;
use std::test::Fail;

fn ino(number: u64) -> Result<Ino, Fail> {
    Ok(Ino::new(number).ok_or("no inode's number")?)
}

fn add(rt: &impl Abort, tree: &mut Directories, directory: u64, parent: u64) -> Result<(), Fail> {
    let directory = ino(directory)?;
    let parent = ino(parent)?;
    assert!(rt; tree.contains(parent));
    assert!(rt; !tree.contains(directory));
    tree.add(directory, parent)?;
    Ok(())
}

#[test]
fn directories_stand_parents_first(rt: HostRuntime) -> Result<(), Fail> {
    let mut tree = Directories::new(rt.alloc())?;
    add(&rt, &mut tree, 9, 1)?;
    add(&rt, &mut tree, 4, 9)?;
    add(&rt, &mut tree, 3, 4)?;
    add(&rt, &mut tree, 5, 1)?;
    assert_eq!(rt; tree.len(), 5);
    let wanted = [1, 5, 9, 4, 3];
    for (i, number) in wanted.iter().enumerate() {
        let directory = tree.get(i).ok_or("a directory")?;
        assert_eq!(rt; directory.ino.get(), *number);
    }
    let path = [ino(3)?, ino(4)?, ino(9)?, ino(1)?];
    assert!(rt; tree.path(ino(3)?) == Some(path.as_slice()));
    assert!(rt; tree.path(ino(2)?).is_none());
    Ok(())
}

#[test]
fn a_path_grows_at_its_front(rt: HostRuntime) -> Result<(), Fail> {
    let top = DirPath::top(rt.alloc(), ino(1)?)?;
    let below = top.below(ino(7)?)?;
    assert_eq!(rt; below.len(), 2);
    assert_eq!(rt; below.as_slice(), [ino(7)?, ino(1)?].as_slice());
    Ok(())
}
