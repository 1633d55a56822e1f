// The entries of all directories, in one table.
ghost use Rattle.std.specs.Prelude.{◌≡◌, ℕ, ◌<◌, ◌∷◌, ◌++◌, ◌==◌, ◌&&◌, [], true, false, if◌then◌else◌, IfOk, OnOk, OnErr};
ghost use Rattle.std.specs.BTreeMap.{IsOrdered, insert_entry, is_at};
ghost use Rattle.std.specs.Map.{remove_entry};
ghost use Rattle.indexmap.specs.IndexSet.{spare};
ghost use Rattle.cs_ids.specs.Names.{is_name};
ghost use Rattle.cs_names.specs.Table.{entries_in, has_entries, is_among, key_cmp};

use cs_ids::{Ino, Memory, Name};
use indexmap::IndexSet;
use std::alloc::Global;
use std::collections::BTreeMap;
use std::collections::btree_map::Range;

// By what an entry is found. The entries are in the order of their directories' numbers, and in a
// directory in that of the bytes of their names.
#[derive(PartialEq, Eq, PartialOrd, Ord, Drop)]
pub struct EntryKey {
    pub dir: u64,
    pub name: Vec<u8>,
}

impl EntryKey {
    // That of a name in a directory.
    pub fn new(alloc: Global, dir: Ino, name: &Name) -> Result<Self, Memory>
        ensures dir { IfOk result (λ k. k.dir ≡ dir) }
        ensures name { IfOk result (λ k. k.name.items ≡ name.now) }
        ensures spelled { IfOk result (λ k. is_name k.name.items ≡ true) }
    {
        Ok(EntryKey {
            dir: dir.get(),
            name: Vec::from_slice(alloc, name.as_slice())?,
        })
    }

    // The least of a directory, which no entry has. It takes no memory.
    fn first_of(alloc: Global, dir: u64) -> Self
        ensures dir { result.dir ≡ dir }
        ensures name { result.name.items ≡ [] }
    {
        EntryKey {
            dir,
            name: Vec::new(alloc),
        }
    }
}

// What an entry stands for.
#[derive(Clone, Copy)]
pub struct Entry {
    pub ino: Ino,
    pub is_dir: bool,
}

// The entries of a directory, by name.
pub fn entries_of(
    entries: &BTreeMap<EntryKey, Entry>,
    alloc: Global,
    dir: Ino,
) -> Range<'_, EntryKey, Entry>
    ensures { result ≡ entries_in dir entries.now.entries }
{
    let number = dir.get();
    let first = EntryKey::first_of(alloc, number);
    let end = EntryKey::first_of(alloc, number + 1);
    entries.range(first..end)
}

// Whether a directory has entries.
fn has_entries(entries: &BTreeMap<EntryKey, Entry>, alloc: Global, dir: Ino) -> bool
    ensures { result ≡ has_entries dir entries.now.entries }
{
    entries_of(entries, alloc, dir).next().is_some()
}

// Whether an entry is that of a directory that has entries.
pub fn is_filled(entries: &BTreeMap<EntryKey, Entry>, alloc: Global, entry: &Entry) -> bool
    ensures { result ≡ (entry.now.is_dir && has_entries entry.now.ino entries.now.entries) }
{
    entry.is_dir && has_entries(entries, alloc, entry.ino)
}

// Takes a new entry, whose inode is one of the directories or of the files from then on. After `Memory`
// all is as before.
pub fn enter(
    entries: &mut BTreeMap<EntryKey, Entry>,
    dirs: &mut IndexSet<Ino>,
    files: &mut IndexSet<Ino>,
    key: EntryKey,
    entry: Entry,
) -> Result<(), Memory>
    requires new_dir { is_among entry.ino dirs.old.keys ≡ false }
    requires new_file { is_among entry.ino files.old.keys ≡ false }
    ensures entries { OnOk result (entries.new.entries ≡ insert_entry key_cmp entries.old.entries key entry) }
    ensures ordered { OnOk result (IsOrdered key_cmp entries.new) }
    ensures dirs { OnOk result (dirs.new.keys ≡ (if entry.is_dir then dirs.old.keys ++ entry.ino ∷ [] else dirs.old.keys)) }
    ensures files { OnOk result (files.new.keys ≡ (if entry.is_dir then files.old.keys else files.old.keys ++ entry.ino ∷ [])) }
    ensures err_entries { OnErr result (entries.new.entries ≡ entries.old.entries) }
    ensures err_dirs { OnErr result (dirs.new.keys ≡ dirs.old.keys) }
    ensures err_files { OnErr result (files.new.keys ≡ files.old.keys) }
{
    if entry.is_dir {
        add(entries, dirs, key, entry)
    } else {
        add(entries, files, key, entry)
    }
}

// Takes a new entry, and its inode as a new one of its kind. After `Memory` all is as before.
fn add(
    entries: &mut BTreeMap<EntryKey, Entry>,
    inodes: &mut IndexSet<Ino>,
    key: EntryKey,
    entry: Entry,
) -> Result<(), Memory>
    requires { is_among entry.ino inodes.old.keys ≡ false }
    ensures entries { OnOk result (entries.new.entries ≡ insert_entry key_cmp entries.old.entries key entry) }
    ensures ordered { OnOk result (IsOrdered key_cmp entries.new) }
    ensures inodes { OnOk result (inodes.new.keys ≡ inodes.old.keys ++ entry.ino ∷ []) }
    ensures err_entries { OnErr result (entries.new.entries ≡ entries.old.entries) }
    ensures err_inodes { OnErr result (inodes.new.keys ≡ inodes.old.keys) }
{
    inodes.reserve(1)?;
    let ino = entry.ino;
    entries.insert(key, entry)?;
    put(inodes, ino);
    Ok(())
}

// Takes a new inode, for which there is room.
fn put(inodes: &mut IndexSet<Ino>, ino: Ino)
    requires new { is_among ino inodes.old.keys ≡ false }
    requires room { 0 < spare inodes.old }
    ensures { inodes.new.keys ≡ inodes.old.keys ++ ino ∷ [] }
{
    match inodes.insert(ino) {
        Ok(_) => {}
        Err(_) => unreachable!(),
    }
}

// Takes the entry of a key out, and its inode out of the directories where it is that of one.
pub fn leave(
    entries: &mut BTreeMap<EntryKey, Entry>,
    dirs: &mut IndexSet<Ino>,
    key: &EntryKey,
    entry: Entry,
)
    ensures entries { entries.new.entries ≡ remove_entry (is_at (key_cmp key.now)) entries.old.entries }
    ensures ordered { IsOrdered key_cmp entries.new }
    ensures dirs { (d : ℕ) → is_among d dirs.new.keys ≡ (if entry.is_dir && (entry.ino == d) then false else is_among d dirs.old.keys) }
{
    if entry.is_dir {
        dirs.swap_remove(&entry.ino);
    }
    entries.remove(key);
}
