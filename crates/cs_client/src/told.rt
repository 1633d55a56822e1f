// The client is told of realms, and the files' contexts follow.
ghost use Rattle.std.specs.Prelude.{◌≡◌, ◌<◌, ◌^◌, ◌++◌, true, false, None, length, map, IfOk, OnOk, OnErr};
ghost use Rattle.std.specs.BTreeMap.{get};
ghost use Rattle.std.specs.Ordering.{nat_cmp};
ghost use Rattle.cs_snapctx.specs.Context.{Context, empty_context};
ghost use Rattle.cs_snapctx.specs.Records.{missing_parent, with_record, with_records};
ghost use Rattle.cs_inode.specs.Calls.{needs_snap_at, with_context_at};
ghost use Rattle.cs_laws.specs.Context.{differs};
ghost use Rattle.cs_tree.specs.Directories.{path_of};
ghost use Rattle.cs_client.specs.Messages.{ParentsAreKnown};
ghost use Rattle.cs_client.specs.Told.{ChangesAll, ChangesRow, ContextsRise, FilesStay, OthersStay, RisesIn, StaysIn, TouchesMore, count_changed, is_touched};
ghost use Rattle.cs_client.specs.Views.{IsEachOnce, IsLike, KeepsTables, SameHomes, is_among};

use crate::contexts::home_context;
use crate::file::ClientFile;
use cs_ids::{Ino, Memory};
use cs_inode::Inode;
use cs_realms::{Changed, RealmFault, Realms};
use cs_snapctx::{RealmRecord, SnapContext};
use cs_tree::Directories;
use std::alloc::Global;
use std::collections::BTreeMap;

/// Takes realm records in, each as the last one of its realm. They come parents first. The realms whose
/// contexts change are touched.
pub fn take_in(alloc: Global, realms: &mut Realms, told: &[RealmRecord]) -> Result<Vec<Ino>, Memory>
    requires { ParentsAreKnown realms.old told.now }
    ensures records { OnOk result (realms.new ≡ with_records told.now realms.old) }
    ensures touched { IfOk result (λ touched. OthersStay touched.items realms.old realms.new) }
{
    let mut touched = Vec::new(alloc);
    for record in told {
        take_one(realms, record, &mut touched)?;
    }
    Ok(touched)
}

// Takes one in, of which the parent is known, if it names one.
fn take_one(realms: &mut Realms, told: &RealmRecord, touched: &mut Vec<Ino>) -> Result<(), Memory>
    requires { missing_parent realms.old told.now ≡ None }
    ensures records { OnOk result (realms.new ≡ with_record told.now realms.old) }
    ensures touched { OnOk result (TouchesMore touched.old.items touched.new.items realms.old realms.new) }
{
    match realms.apply(told) {
        Ok(changed) => Ok(touch(&changed, touched)?),
        Err(RealmFault::Memory) => Err(Memory),
        Err(RealmFault::NoParent { .. }) => unreachable!(),
    }
}

// Adds the realms of these changes.
fn touch(changed: &Changed, touched: &mut Vec<Ino>) -> Result<(), Memory>
    ensures { OnOk result (touched.new.items ≡ touched.old.items ++ map (λ c. c.realm) changed.now) }
{
    for change in changed.as_slice() {
        touched.push(change.realm)?;
    }
    Ok(())
}

/// Each of these files that has another context by the realms gets it, and with it a cap snap with the
/// one before, where it has a writer or dirty metadata, unless one is writing. How many got one. Where
/// the files had `followed` the realms, until the contexts of those that are `touched` became other ones,
/// files that are below none of these stay.
pub fn change_all(
    alloc: Global,
    files: &mut BTreeMap<Ino, ClientFile>,
    made: &[Ino],
    tree: &Directories,
    realms: &Realms,
    touched: &[Ino],
    followed: bool,
) -> Result<u32, Memory>
    requires few { length made.now < 2 ^ 32 }
    requires once { IsEachOnce made.now }
    requires rises { ContextsRise (path_of tree.now) realms.now files.old }
    requires stay { followed ≡ true → FilesStay (path_of tree.now) touched.now realms.now files.old }
    ensures count { IfOk result (λ n. n ≡ count_changed (path_of tree.now) realms.now files.old made.now) }
    ensures rows { OnOk result (ChangesAll (path_of tree.now) realms.now files.old files.new made.now) }
    ensures tables { KeepsTables files.old files.new }
    ensures homes { SameHomes files.old files.new }
{
    let empty = SnapContext::empty(alloc);
    let mut count = 0;
    for file in made {
        let needed = change(files, *file, tree, realms, touched, followed, &empty)?;
        count += u32::from(needed);
    }
    Ok(count)
}

// The context of a file is that of its nearest realm now, or the empty one where it has none. It stays
// where files had followed and no realm on the way up is touched. Whether the file got a cap snap.
fn change(
    files: &mut BTreeMap<Ino, ClientFile>,
    file: Ino,
    tree: &Directories,
    realms: &Realms,
    touched: &[Ino],
    followed: bool,
    empty: &SnapContext,
) -> Result<bool, Memory>
    requires empty { empty.now ≡ empty_context }
    requires rises { RisesIn (path_of tree.now) realms.now (get nat_cmp files.old file) }
    requires stay { followed ≡ true → StaysIn (path_of tree.now) touched.now realms.now
        (get nat_cmp files.old file) }
    ensures ok { IfOk result (λ b. ChangesRow (path_of tree.now) realms.now files.old files.new file b) }
    ensures tables { KeepsTables files.old files.new }
    ensures homes { SameHomes files.old files.new }
{
    let Some(row) = files.get_mut(&file) else {
        return Ok(false);
    };
    if followed && !is_below_touched(tree, touched, row.home) {
        return Ok(false);
    }
    let told = home_context(tree, realms, row.home).unwrap_or(empty);
    Ok(change_inode(&mut row.inode, told)?)
}

// Whether a realm on the way up from a directory has another context. One that isn't known may have.
fn is_below_touched(tree: &Directories, touched: &[Ino], home: Ino) -> bool
    ensures { result ≡ false → is_touched touched.now (path_of tree.now home) ≡ false }
{
    match tree.path(home) {
        Some(path) => is_touched(touched, path),
        None => true,
    }
}

fn is_touched(touched: &[Ino], path: &[Ino]) -> bool
    ensures { result ≡ is_touched touched.now path.now }
{
    path.iter().any(|directory| is_among(touched, *directory))
}

fn is_among(touched: &[Ino], directory: Ino) -> bool
    ensures { result ≡ is_among directory touched.now }
{
    touched.contains(&directory)
}

// A file's context becomes this one, or stays. Whether it got a cap snap.
fn change_inode(inode: &mut Inode, told: &SnapContext) -> Result<bool, Memory>
    requires { differs inode.old.context told.now ≡ true → inode.old.context.seq < told.now.seq }
    ensures needed { IfOk result (λ b. b ≡ needs_snap_at told.now inode.old) }
    ensures after { OnOk result (inode.new ≡ with_context_at told.now inode.old) }
    ensures like { IsLike inode.old inode.new }
{
    if *inode.context() == *told {
        return Ok(false);
    }
    Ok(inode.new_context(told.copy()?)?)
}
