// The queue, after the CephFS documentation of snapshots and capabilities and the comments of Linux's
// fs/ceph/snap.c and fs/ceph/caps.c.
ghost use Rattle.std.specs.Prelude.{◌≡◌, ◌<◌, ◌≤◌, ◌↔◌, true, false, [], ◌∷◌, ◌++◌, is_some, length, position, slice_get, IsNone, OnErr, OnOk};
ghost use Rattle.std.specs.Option.{option_and_then, option_copied};
ghost use Rattle.cs_capsnap.specs.CapSnaps.{CallsReady, can_send, finished, first_follows, first_unsent, flush, greatest_tid, has_tid, has_unacked_below, is_sent_as, is_writing, queued, readiness, unacked, unacked_tids, with_first_sent, without_tid, writing_context, writing_snap};
ghost use Rattle.cs_capsnap.specs.Order.{IsAscending, IsInOrder};

use crate::{CapSnap, Ready};
use cs_ids::{FileMeta, Memory, Seq, Snap, Tid};
use cs_snapctx::SnapContext;
use std::alloc::Global;
use std::collections::VecDeque;
use std::marker::Model;

/// One file's queue of cap snaps. Those that were sent and aren't acked stand in front of those that
/// weren't sent yet, with rising flush numbers. Only the last may be writing.
#[derive(Drop)]
pub struct CapSnaps {
    snaps: VecDeque<CapSnap>,
    // The place of the first unsent one.
    next: usize,
}

impl Model for CapSnaps {
    ghost use Rattle.std.specs.Prelude.{List};
    ghost use Rattle.cs_capsnap.specs.declared.snap.CapSnap.{CapSnap};
    ghost use Rattle.cs_capsnap.specs.Order.{IsQueue};

    ghost Value = { List CapSnap };

    ghost view = { λ q. q.snaps.items };

    ghost invariant = { λ q. IsQueue q.next q.snaps.items };
}

impl CapSnaps {
    /// No cap snaps. It takes no memory.
    pub fn new(alloc: Global) -> Self
        ensures { result ≡ [] }
    {
        CapSnaps {
            snaps: VecDeque::new(alloc),
            next: 0,
        }
    }

    /// Queues a cap snap with the file's old context. Where writers still live it is writing, and
    /// `finish` fixes its size and mtime later. None is queued while one is writing: no writer
    /// begins in the meantime, so another would wait for the same writers. After `Memory` the queue
    /// is as before.
    #[tactic(auto, using(crate::proofs::Order::queue_push))]
    pub fn queue(&mut self, old: SnapContext, writing: bool, meta: FileMeta) -> Result<(), Memory>
        requires { is_writing self.old ≡ false }
        ensures ok { OnOk result (self.new ≡ self.old ++ queued old writing meta ∷ []) }
        ensures err { OnErr result (self.new ≡ self.old) }
    {
        self.snaps.push_back(CapSnap {
            context: old,
            meta,
            writing,
            tid: None,
        })?;
        Ok(())
    }

    /// Whether a cap snap is writing, which only the last may be.
    pub fn is_writing(&self) -> bool
        ensures value { result ≡ is_writing self.now }
        ensures order { IsInOrder self.now }
    {
        self.writing_snap().is_some()
    }

    /// The context of the cap snap that is writing, or None exactly where none is.
    pub fn writing_context(&self) -> Option<&SnapContext>
        ensures value { option_copied result ≡ writing_context self.now }
        ensures none { IsNone result ↔ (is_writing self.now ≡ false) }
    {
        let snap = self.writing_snap()?;
        Some(&snap.context)
    }

    // The cap snap that is writing.
    #[tactic(auto, using(crate::proofs::Steps::last_may_write, crate::proofs::Steps::last_writes))]
    fn writing_snap(&self) -> Option<&CapSnap>
        ensures value { option_copied result ≡ writing_snap self.now }
        ensures some { is_some result ≡ is_writing self.now }
        ensures order { IsInOrder self.now }
    {
        let last = self.snaps.back()?;
        if last.writing { Some(last) } else { None }
    }

    /// The last writer has ended: fixes the size, in bytes, and the mtime of the cap snap that was
    /// writing. Its mode stays as it was queued.
    #[tactic(auto, using(crate::proofs::Steps::some_writes, crate::proofs::Steps::last_finishes, crate::proofs::Order::queue_finished))]
    pub fn finish(&mut self, size: u64, mtime: u64)
        requires { is_writing self.old ≡ true }
        ensures { self.new ≡ finished size mtime self.old }
    {
        let last = self.snaps.len() - 1;
        let snap = &mut self.snaps[last];
        snap.writing = false;
        snap.meta.size = size;
        snap.meta.mtime = mtime;
    }

    /// Whether the first unsent cap snap can be sent, where `owed` pages are owed under contexts
    /// whose `seq` is at most `first_follows`.
    pub fn ready(&self, owed: u32) -> Ready
        ensures value { result ≡ readiness owed (first_unsent self.now) }
        ensures ready { CallsReady self.now result }
    {
        let Some(snap) = self.first_unsent() else {
            return Ready::NoneQueued;
        };
        if snap.writing {
            Ready::Writing
        } else if owed == 0 {
            Ready::Ready(snap.meta, snap.context.seq())
        } else {
            Ready::PagesLeft { count: owed }
        }
    }

    /// The `seq` of the context of the first unsent cap snap, or None exactly where none is unsent.
    pub fn first_follows(&self) -> Option<Seq>
        ensures { result ≡ first_follows self.now }
    {
        let snap = self.first_unsent()?;
        Some(snap.context.seq())
    }

    // The cap snap at a place, counted from 0. Those that were sent have the first places.
    fn snap_at(&self, place: usize) -> Option<&CapSnap>
        ensures value { option_copied result ≡ slice_get self.now place }
        ensures order { IsInOrder self.now }
        ensures unacked { option_and_then flush (option_copied result) ≡ slice_get (unacked self.now) place }
    {
        self.snaps.get(place)
    }

    // The first unsent cap snap.
    #[tactic(auto, using(crate::proofs::Steps::first_unsent_at))]
    fn first_unsent(&self) -> Option<&CapSnap>
        ensures { option_copied result ≡ first_unsent self.now }
    {
        self.snap_at(self.next)
    }

    /// The first unsent cap snap, which isn't writing, is sent in a flush of this number. That is
    /// greater than the number of each flush that isn't acknowledged.
    #[tactic(auto, using(crate::proofs::Places::within, crate::proofs::Places::sent_at, crate::proofs::Order::queue_sent))]
    pub fn sent(&mut self, tid: Tid)
        requires ready { can_send self.old ≡ true }
        requires later { greatest_tid self.old < tid }
        ensures { self.new ≡ with_first_sent tid self.old }
    {
        let snap = &mut self.snaps[self.next];
        snap.tid = Some(tid);
        self.next += 1;
    }

    /// The server has acknowledged the flush of this number: its cap snap leaves the queue. False
    /// exactly where none that was sent has it; then nothing changes.
    #[tactic(auto, using(crate::proofs::Places::found_place, crate::proofs::Places::no_place, crate::proofs::Places::without_none))]
    pub fn acked(&mut self, tid: Tid) -> bool
        ensures found { result ≡ has_tid tid self.old }
        ensures after { self.new ≡ without_tid tid self.old }
        ensures gone { has_tid tid self.new ≡ false }
    {
        let Some(place) = self.place_of(tid) else {
            return false;
        };
        let _ = self.snaps.remove(place);
        self.next -= 1;
        true
    }

    // The place of the cap snap that was sent under this number.
    fn place_of(&self, tid: Tid) -> Option<usize>
        ensures { result ≡ position (is_sent_as tid) self.now }
    {
        self.snaps.iter().position(|snap| snap.tid == Some(tid))
    }

    /// Whether a cap snap of the queue, sent or not, has a context whose `seq` is below the number of
    /// a snapshot: then the server may not know yet what the file was at that snapshot.
    pub fn unacked_below(&self, s: Snap) -> bool
        ensures { result ≡ has_unacked_below s self.now }
    {
        self.snaps
            .iter()
            .any(|snap| snap.context.seq().get() < s.get())
    }

    /// The cap snap at place `i`, counted from 0, of those that were sent and aren't acked, in the
    /// order of their flush numbers: that number, the `seq` of its context and its metadata. None
    /// exactly past the last.
    #[tactic(auto, using(crate::proofs::Unacked::none_past_end, crate::proofs::Unacked::tids_ascend))]
    pub fn unacked(&self, i: usize) -> Option<(Tid, Seq, FileMeta)>
        ensures value { result ≡ slice_get (unacked self.now) i }
        ensures past_end { IsNone result ↔ (length (unacked self.now) ≤ i) }
        ensures order { IsAscending (unacked_tids self.now) }
    {
        let snap = self.snap_at(i)?;
        snap.flush()
    }
}
