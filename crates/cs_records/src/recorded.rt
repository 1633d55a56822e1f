// The metadata of a file's flushes, by what they follow.
ghost use Rattle.std.specs.Prelude.{◌≡◌, ◌≤◌, true, false, [], length, OnOk, OnErr};
ghost use Rattle.std.specs.List.Sorted.{IsPartitionPoint};
ghost use Rattle.cs_laws.specs.Metadata.{no_meta};
ghost use Rattle.cs_laws.specs.Shown.{is_before};
ghost use Rattle.cs_records.specs.Recorded.{last_recorded, with_recorded};

use cs_ids::{FileMeta, Memory, Seq};
use cs_laws::At;
use std::alloc::Global;
use std::marker::Model;

// The mode of a file that was never flushed.
const FIRST_MODE: u16 = 0o644;

// The flushes of a file: each number that one follows, and the metadata of the last one that does.
// These numbers rise. Contracts see them as a list of pairs.
#[derive(Drop)]
pub struct Recorded {
    flushes: Vec<(Seq, FileMeta)>,
}

impl Model for Recorded {
    ghost use Rattle.std.specs.Prelude.{List, ℕ};
    ghost use Rattle.cs_ids.specs.declared.objects.FileMeta.{FileMeta};
    ghost use Rattle.cs_records.specs.Recorded.{AreRising};

    ghost Value = { List (ℕ × FileMeta) };

    ghost view = { λ r. r.flushes.items };

    ghost invariant = { λ r. AreRising r.flushes.items };
}

impl Recorded {
    // No flushes. It takes no memory.
    pub fn new(alloc: Global) -> Self
        ensures { result ≡ [] }
    {
        Recorded {
            flushes: Vec::new(alloc),
        }
    }

    // Records a flush: its metadata takes the place of what stands under the number that it follows.
    // After `Memory` all is as before.
    pub fn record(&mut self, follows: Seq, meta: FileMeta) -> Result<(), Memory>
        ensures ok { OnOk result (self.new ≡ with_recorded (follows, meta) self.old) }
        ensures err { OnErr result (self.new ≡ self.old) }
    {
        match self.flushes.binary_search_by_key(&follows, |x| x.0) {
            Ok(place) => {
                self.flushes[place].1 = meta;
                Ok(())
            }
            Err(place) => Ok(self.flushes.insert(place, (follows, meta))?),
        }
    }

    // The file's metadata at a snapshot, which is that of the last flush that follows a smaller
    // number, or at present, that of the last one.
    pub fn at(&self, at: At) -> FileMeta
        ensures { result ≡ last_recorded at self.now }
    {
        let count = self.count_before(at);
        match self.flushes[..count].last() {
            Some((_, meta)) => *meta,
            None => unflushed(),
        }
    }

    // How many of the flushes follow a number before a state. They stand in front of the others.
    fn count_before(&self, at: At) -> usize
        ensures bound { result ≤ length self.now }
        ensures point { IsPartitionPoint (λ x. is_before at x.0 ≡ true) (λ x. is_before at x.0 ≡ false) self.now result }
    {
        match at {
            At::Head => self.flushes.len(),
            At::Snap(s) => self.flushes.partition_point(|x| x.0.get() < s.get()),
        }
    }
}

// The metadata of a file that was never flushed.
pub fn unflushed() -> FileMeta
    ensures { result ≡ no_meta }
{
    FileMeta {
        size: 0,
        mtime: 0,
        mode: FIRST_MODE,
    }
}
