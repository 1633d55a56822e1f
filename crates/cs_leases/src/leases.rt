// The table of leases.
ghost use Rattle.std.specs.Prelude.{◌≡◌, ℕ, List, [], None, Some, if◌then◌else◌, OnOk, OnErr};
ghost use Rattle.cs_leases.specs.Leases.{is_entry, lease_on, lookup_answer};

use crate::Lookup;
use crate::entry::Entry;
use cs_ids::{Ino, Memory, Name};
use indexmap::IndexMap;
use std::alloc::Global;
use std::marker::Model;

// What a lease says of its entry.
#[derive(Drop)]
struct Lease {
    ino: Ino,
    until: u64,
}

impl Lease {
    // What it says of its entry at a time.
    fn answer(&self, now: u64) -> Lookup
        ensures { result ≡ lookup_answer (Some (self.now.ino, self.now.until)) now }
    {
        if now >= self.until {
            Lookup::Expired { until: self.until }
        } else {
            Lookup::Hit(self.ino)
        }
    }
}

/// The leases on entries of directories, at most one on each, after the leases on dentries of Linux
/// `fs/ceph/dir.c`. Times are in seconds of the clock that the caller goes by. A lease whose time has
/// come stays until it is ended.
#[derive(Drop)]
pub struct Leases {
    // In no order that a caller can see: where one ends, the last takes its place.
    leases: IndexMap<Entry, Lease>,
}

impl Model for Leases {
    ghost use Rattle.std.specs.Prelude.{List};
    ghost use Rattle.cs_leases.specs.Leases.{EntryLease};

    ghost Value = { List EntryLease };

    ghost use Rattle.cs_leases.specs.Entries.{listed};

    ghost view = { λ t. listed t.leases.entries };
}

impl Leases {
    /// No leases. It takes no memory.
    pub fn new(alloc: Global) -> Self
        ensures { result ≡ [] }
    {
        Leases {
            leases: IndexMap::new(alloc),
        }
    }

    /// Takes a lease on the entry of a directory that has the name: it has this inode until this time.
    /// It takes the place of the lease that is on the entry, if any. After `Memory` all leases are as
    /// before.
    pub fn take(&mut self, dir: Ino, name: &Name, ino: Ino, until: u64) -> Result<(), Memory>
        ensures ok { OnOk result ((d : ℕ) (n : List ℕ) → lease_on self.new d n
            ≡ (if is_entry dir name.now d n then Some (ino, until) else lease_on self.old d n)) }
        ensures err { OnErr result (self.new ≡ self.old) }
    {
        self.leases
            .insert(Entry::new(dir, name), Lease { ino, until })?;
        Ok(())
    }

    /// What the leases say of the entry of a directory that has the name, at a time. A look-up is one
    /// into a hash table, however many leases there are, and takes no memory.
    pub fn lookup(&self, dir: Ino, name: &Name, now: u64) -> Lookup
        ensures { result ≡ lookup_answer (lease_on self.now dir name.now) now }
    {
        match self.leases.get(&Entry::new(dir, name)) {
            None => Lookup::Absent,
            Some(lease) => lease.answer(now),
        }
    }

    /// Ends the lease on the entry of a directory that has the name, if there is one. It takes no
    /// memory.
    pub fn revoke(&mut self, dir: Ino, name: &Name)
        ensures { (d : ℕ) (n : List ℕ) → lease_on self.new d n
            ≡ (if is_entry dir name.now d n then None else lease_on self.old d n) }
    {
        let _ended = self.leases.swap_remove(&Entry::new(dir, name));
    }

    /// Ends all leases. It takes no memory.
    pub fn end_all(&mut self)
        ensures { self.new ≡ [] }
    {
        self.leases.clear();
    }
}
