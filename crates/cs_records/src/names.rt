// The names of snapshots.
ghost use Rattle.std.specs.Prelude.{◌≡◌, ◌==◌, ◌&&◌, ◌||◌, ℕ, List, None, Some, false, if◌then◌else◌, OnOk, OnErr};
ghost use Rattle.std.specs.Str.{bytes_eq};
ghost use Rattle.cs_records.specs.Names.{has_names, last_in, name_in};

use cs_ids::{Ino, Memory, Name, Snap};
use indexmap::IndexMap;
use std::alloc::Global;
use std::collections::BTreeMap;

// The last snapshot of each name in one directory.
#[derive(Drop)]
struct NameTable {
    // By the bytes of the name.
    last: IndexMap<Vec<u8>, Snap>,
}

impl NameTable {
    // No names. It takes no memory.
    fn new(alloc: Global) -> Self
        ensures { (name : List ℕ) → last_in result name ≡ None }
    {
        NameTable {
            last: IndexMap::new(alloc),
        }
    }

    // The last snapshot that has the name.
    fn last(&self, name: &Name) -> Option<Snap>
        ensures { result ≡ last_in self.now name.now }
    {
        self.last.get(name.as_slice()).copied()
    }

    // Takes a snapshot as the last one of the name with these bytes. After `Memory` all names are as
    // before.
    fn put(&mut self, name: Vec<u8>, number: Snap) -> Result<(), Memory>
        ensures ok { OnOk result ((other : List ℕ) → last_in self.new other ≡ (if bytes_eq other name.items then Some number else last_in self.old other)) }
        ensures err { OnErr result ((other : List ℕ) → last_in self.new other ≡ last_in self.old other) }
    {
        self.last.insert(name, number)?;
        Ok(())
    }
}

// The last snapshot of each name in each directory, whether removed or not.
#[derive(Drop)]
pub struct Names {
    alloc: Global,
    tables: BTreeMap<Ino, NameTable>,
}

impl Names {
    // No names. It takes no memory.
    pub fn new(alloc: Global) -> Self
        ensures names { (d : ℕ) (name : List ℕ) → name_in result d name ≡ None }
        ensures dirs { (d : ℕ) → has_names result d ≡ false }
    {
        Names {
            alloc,
            tables: BTreeMap::new(alloc),
        }
    }

    // The last snapshot of a directory that has the name.
    pub fn last(&self, dir: Ino, name: &Name) -> Option<Snap>
        ensures { result ≡ name_in self.now dir name.now }
    {
        self.tables.get(&dir)?.last(name)
    }

    // Whether a snapshot of a directory was taken.
    pub fn has(&self, dir: Ino) -> bool
        ensures { result ≡ has_names self.now dir }
    {
        self.tables.contains_key(&dir)
    }

    // Takes a snapshot as the last one of its name. After `Memory` all names are as before.
    pub fn add(&mut self, dir: Ino, name: &Name, number: Snap) -> Result<(), Memory>
        ensures ok { OnOk result ((d : ℕ) (other : List ℕ) → name_in self.new d other ≡ (if (dir == d) && bytes_eq other name.now then Some number else name_in self.old d other)) }
        ensures err { OnErr result ((d : ℕ) (other : List ℕ) → name_in self.new d other ≡ name_in self.old d other) }
        ensures dirs { OnOk result ((d : ℕ) → has_names self.new d ≡ (has_names self.old d || (dir == d))) }
        ensures kept_dirs { OnErr result ((d : ℕ) → has_names self.new d ≡ has_names self.old d) }
    {
        let key = Vec::from_slice(self.alloc, name.as_slice())?;
        match self.tables.get_mut(&dir) {
            Some(table) => {
                table.put(key, number)?;
            }
            None => {
                let mut table = NameTable::new(self.alloc);
                table.put(key, number)?;
                self.tables.insert(dir, table)?;
            }
        }
        Ok(())
    }
}
