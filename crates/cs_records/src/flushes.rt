// The flushes of each file.
ghost use Rattle.std.specs.Prelude.{◌≡◌, ◌==◌, ◌<◌, ℕ, if◌then◌else◌, OnOk, OnErr};
ghost use Rattle.cs_records.specs.Flushed.{none_flushed, with_flushed};
ghost use Rattle.cs_records.specs.Flushes.{flushed_in};
ghost use Rattle.cs_records.specs.Places.{greatest_in, place_in};
ghost use Rattle.cs_records.specs.Recorded.{last_recorded};

use crate::recorded::{Recorded, unflushed};
use cs_ids::{FileMeta, Ino, Memory, Seq, Tid};
use cs_laws::At;
use std::alloc::Global;
use std::collections::BTreeMap;
use std::marker::Model;

// The flushes of one file.
#[derive(Drop)]
struct FileFlushes {
    // The number of each, and the place of its record in the log. The numbers rise.
    numbers: Vec<(Tid, usize)>,
    recorded: Recorded,
}

impl Model for FileFlushes {
    ghost use Rattle.cs_records.specs.Flushed.{Flushed};
    ghost use Rattle.cs_records.specs.Places.{ArePlaced};

    ghost Value = { Flushed };

    ghost view = { λ f. record { places = f.numbers.items; metas = f.recorded } };

    ghost invariant = { λ f. ArePlaced f.numbers.items };
}

impl FileFlushes {
    // No flushes. It takes no memory.
    fn new(alloc: Global) -> Self
        ensures { result ≡ none_flushed }
    {
        FileFlushes {
            numbers: Vec::new(alloc),
            recorded: Recorded::new(alloc),
        }
    }

    // The number of the last flush, or 0 where there is none.
    fn last_tid(&self) -> u64
        ensures { result ≡ greatest_in self.now.places }
    {
        match self.numbers.last() {
            Some((tid, _)) => tid.get(),
            None => 0,
        }
    }

    // The place in the log of the record of a flush.
    fn place(&self, tid: Tid) -> Option<usize>
        ensures { result ≡ place_in tid self.now.places }
    {
        match self.numbers.binary_search_by_key(&tid, |x| x.0) {
            Ok(i) => Some(self.numbers[i].1),
            Err(_) => None,
        }
    }

    // The file's metadata at a state.
    fn meta(&self, at: At) -> FileMeta
        ensures { result ≡ last_recorded at self.now.metas }
    {
        self.recorded.at(at)
    }

    // Takes one more flush. After `Memory` all is as before.
    fn add(&mut self, tid: Tid, place: usize, follows: Seq, meta: FileMeta) -> Result<(), Memory>
        requires { greatest_in self.old.places < tid }
        ensures ok { OnOk result (self.new ≡ with_flushed tid place follows meta self.old) }
        ensures err { OnErr result (self.new ≡ self.old) }
    {
        self.numbers.reserve(1)?;
        self.recorded.record(follows, meta)?;
        self.numbers.push_reserved((tid, place));
        Ok(())
    }
}

// The flushes of all files.
#[derive(Drop)]
pub struct Flushes {
    alloc: Global,
    files: BTreeMap<Ino, FileFlushes>,
}

impl Flushes {
    // No flushes. It takes no memory.
    pub fn new(alloc: Global) -> Self
        ensures { (f : ℕ) → flushed_in result f ≡ none_flushed }
    {
        Flushes {
            alloc,
            files: BTreeMap::new(alloc),
        }
    }

    // The number of a file's last flush, or 0 where there is none.
    pub fn last_tid(&self, file: Ino) -> u64
        ensures { result ≡ greatest_in (flushed_in self.now file).places }
    {
        match self.files.get(&file) {
            Some(flushes) => flushes.last_tid(),
            None => 0,
        }
    }

    // The place in the log of the record of a file's flush.
    pub fn place(&self, file: Ino, tid: Tid) -> Option<usize>
        ensures { result ≡ place_in tid (flushed_in self.now file).places }
    {
        self.files.get(&file)?.place(tid)
    }

    // A file's metadata at a state.
    pub fn meta(&self, file: Ino, at: At) -> FileMeta
        ensures { result ≡ last_recorded at (flushed_in self.now file).metas }
    {
        match self.files.get(&file) {
            Some(flushes) => flushes.meta(at),
            None => unflushed(),
        }
    }

    // Takes one more flush of a file. After `Memory` all are as before.
    pub fn add(
        &mut self,
        file: Ino,
        tid: Tid,
        place: usize,
        follows: Seq,
        meta: FileMeta,
    ) -> Result<(), Memory>
        requires { greatest_in (flushed_in self.old file).places < tid }
        ensures ok { OnOk result ((f : ℕ) → flushed_in self.new f ≡ (if file == f then with_flushed tid place follows meta (flushed_in self.old f) else flushed_in self.old f)) }
        ensures err { OnErr result ((f : ℕ) → flushed_in self.new f ≡ flushed_in self.old f) }
    {
        match self.files.get_mut(&file) {
            Some(flushes) => {
                flushes.add(tid, place, follows, meta)?;
            }
            None => {
                let mut flushes = FileFlushes::new(self.alloc);
                flushes.add(tid, place, follows, meta)?;
                self.files.insert(file, flushes)?;
            }
        }
        Ok(())
    }
}
