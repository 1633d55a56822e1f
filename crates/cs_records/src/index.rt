// What the records tell of, by number and by name.
ghost use Rattle.std.specs.Prelude.{◌≡◌, ◌==◌, ◌||◌, ◌<◌, ◌++◌, ◌∷◌, [], ℕ, Some, nat_eq, if◌then◌else◌, OnOk, OnErr};
ghost use Rattle.indexmap.specs.IndexMap.{get, spare};
ghost use Rattle.cs_records.specs.Indexed.{IsIndexed};
ghost use Rattle.cs_records.specs.Log.{IsNext};
ghost use Rattle.cs_records.specs.Names.{has_names};

use crate::flushes::Flushes;
use crate::names::Names;
use crate::own_table::ROOT;
use crate::requests::Requests;
use crate::sinces::Sinces;
use cs_ids::{Ino, Memory, Snap};
use cs_laws::{Record, RecordBody};
use indexmap::{IndexMap, IndexSet};
use std::alloc::Global;

// Tables of all records, be they durable or not.
#[derive(Drop)]
pub struct Index {
    // The numbers that were drawn, and from which on each directory is covered.
    pub sinces: Sinces,
    // The directory of each snapshot.
    pub dirs: IndexMap<Snap, Ino>,
    // The snapshots that are removed.
    pub removed: IndexSet<Snap>,
    pub names: Names,
    pub flushes: Flushes,
    pub requests: Requests,
}

impl Index {
    // That of no records. It takes no memory.
    pub fn new(alloc: Global) -> Self
        ensures { IsIndexed [] result }
    {
        Index {
            sinces: Sinces::new(alloc),
            dirs: IndexMap::new(alloc),
            removed: IndexSet::new(alloc),
            names: Names::new(alloc),
            flushes: Flushes::new(alloc),
            requests: Requests::new(alloc),
        }
    }

    // Whether a directory is a realm.
    pub fn is_realm(&self, dir: Ino) -> bool
        ensures { result ≡ ((dir == 1) || has_names self.now.names dir) }
    {
        dir.get() == ROOT || self.names.has(dir)
    }

    // Takes what one more record tells. After `Memory` it is that of the records before.
    pub fn add(&mut self, records: &[Record], body: &RecordBody) -> Result<(), Memory>
        requires indexed { IsIndexed records.now self.old }
        requires next { IsNext records.now body.now }
        ensures ok { OnOk result (IsIndexed (records.now ++ record { body = body.now } ∷ []) self.new) }
        ensures err { OnErr result (IsIndexed records.now self.new) }
    {
        match body {
            RecordBody::Request { tid, op, answer } => {
                let place = records.len();
                self.requests.reserve()?;
                self.sinces.answer(op, answer)?;
                self.requests.enter(*tid, place, *answer);
                Ok(())
            }
            RecordBody::Flush {
                file,
                tid,
                follows,
                meta,
                ..
            } => {
                let place = records.len();
                self.flushes.add(*file, *tid, place, *follows, *meta)
            }
            RecordBody::Snap { number, dir, name } => {
                self.dirs.reserve(1)?;
                self.names.add(*dir, name, *number)?;
                enter_dir(&mut self.dirs, *number, *dir);
                self.sinces.draw(*number);
                Ok(())
            }
            RecordBody::Removal { snap, number } => {
                self.removed.insert(*snap)?;
                self.sinces.draw(*number);
                Ok(())
            }
        }
    }
}

// Takes the directory of a snapshot, for which there is room.
fn enter_dir(dirs: &mut IndexMap<Snap, Ino>, snap: Snap, dir: Ino)
    requires { 0 < spare dirs.old }
    ensures { (s : ℕ) → get nat_eq dirs.new s ≡ (if snap == s then Some dir else get nat_eq dirs.old s) }
{
    match dirs.insert(snap, dir) {
        Ok(_) => {}
        Err(_) => unreachable!(),
    }
}
