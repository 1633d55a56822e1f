// The snapshots of one realm.
ghost use Rattle.std.specs.Prelude.{◌≡◌, ◌==◌, not, [], ◌∷◌, filter, IfOk, OnOk, OnErr};

use cs_ids::{Memory, Seq, Snap};
use cs_snapctx::SnapList;
use std::alloc::Global;
use std::marker::Model;

// A realm's own snapshots, and the number of its last snapshot or removal. Contracts see the newest
// snapshot first.
#[derive(Drop)]
pub struct OwnSnaps {
    seq: Seq,
    // The oldest first, so that the newest goes at the end.
    snaps: Vec<Snap>,
}

impl Model for OwnSnaps {
    ghost use Rattle.std.specs.Prelude.{reverse};
    ghost use Rattle.cs_laws.specs.Realms.{Own};

    ghost Value = { Own };

    ghost view = { λ o. record { seq = o.seq; snaps = reverse o.snaps.items } };
}

impl OwnSnaps {
    // The first snapshot.
    pub fn first(alloc: Global, number: Snap) -> Result<Self, Memory>
        ensures { IfOk result (λ o. o ≡ record { seq = number; snaps = number ∷ [] }) }
    {
        let mut snaps = Vec::new(alloc);
        snaps.push(number)?;
        Ok(OwnSnaps {
            seq: seq_of(number),
            snaps,
        })
    }

    // The number of the last snapshot or removal.
    pub fn seq(&self) -> Seq
        ensures { result ≡ self.now.seq }
    {
        self.seq
    }

    // A list of the snapshots, the newest first.
    pub fn newest_first(&self) -> Result<SnapList, Memory>
        ensures { IfOk result (λ list. list ≡ self.now.snaps) }
    {
        let mut snaps = Vec::from_slice(*self.snaps.allocator(), self.snaps.as_slice())?;
        snaps.reverse();
        Ok(SnapList::from_vec(snaps))
    }

    // Takes one more snapshot. After `Memory` it is as before.
    pub fn add(&mut self, number: Snap) -> Result<(), Memory>
        ensures ok { OnOk result (self.new ≡ record { seq = number; snaps = number ∷ self.old.snaps }) }
        ensures err { OnErr result (self.new ≡ self.old) }
    {
        self.snaps.push(number)?;
        self.seq = seq_of(number);
        Ok(())
    }

    // Removes a snapshot, under a number of its own.
    pub fn remove(&mut self, snap: Snap, number: Snap)
        ensures { self.new ≡ record { seq = number; snaps = filter (λ t. not (t == snap)) self.old.snaps } }
    {
        self.snaps.retain(|t| *t != snap);
        self.seq = seq_of(number);
    }
}

// The number of a context whose last change has this number.
fn seq_of(number: Snap) -> Seq
    ensures { result ≡ number }
{
    let Some(seq) = Seq::new(number.get()) else {
        unreachable!()
    };
    seq
}
