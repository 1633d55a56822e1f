// A file's dirty bits and unacknowledged flushes, after the comments of Linux's fs/ceph/caps.c on
// dirty and flushing capabilities.
ghost use Rattle.std.specs.Prelude.{◌≡◌, ◌+◌, ◌<◌, ◌↔◌, false, [], length, OnErr, OnOk};
ghost use Rattle.cs_bits.specs.Bits.{no_caps, union};
ghost use Rattle.cs_flush.specs.declared.sent.FlushAck.TheVariants as acks;
ghost use Rattle.cs_flush.specs.Flushes.{IfRetired, after_ack, answer, greatest_tid, has_tid, started, IsRising};

use crate::{FlushAck, Sent};
use cs_bits::Caps;
use cs_ids::{FileMeta, Memory, Seq, Tid};
use std::alloc::Global;
use std::marker::Model;

/// One file's dirty metadata and unacknowledged flushes. `Fw` marks size and times, `Ax` owner and
/// mode. The flushes stand in the order in which they were sent, and their numbers rise.
#[derive(Drop)]
pub struct Flushes {
    dirty: Caps,
    unacked: Vec<Sent>,
}

impl Model for Flushes {
    ghost use Rattle.cs_flush.specs.Flushes.{FileFlushes, IsRising};

    ghost Value = { FileFlushes };

    ghost view = { λ f. record { dirty = f.dirty; unacked = f.unacked.items } };

    ghost invariant = { λ f. IsRising f.unacked.items };
}

impl Flushes {
    /// Nothing is dirty and no flush is unacknowledged. It takes no memory.
    pub fn new(alloc: Global) -> Self
        ensures { result ≡ record { dirty = no_caps; unacked = [] } }
    {
        Flushes {
            dirty: Caps::none(),
            unacked: Vec::new(alloc),
        }
    }

    /// Marks metadata dirty, beside what is dirty already.
    pub fn dirty(&mut self, bits: Caps)
        ensures { self.new ≡ record self.old { dirty = union self.old.dirty bits } }
    {
        self.dirty = self.dirty.union(bits);
    }

    /// The marks of the metadata that is dirty.
    pub fn dirty_bits(&self) -> Caps
        ensures { result ≡ self.now.dirty }
    {
        self.dirty
    }

    /// The file's metadata is sent in a flush of this number, greater than that of each unacknowledged
    /// one. `follows` is the `seq` of the file's present snapshot context. The flush is unacknowledged
    /// from now on, and nothing is dirty. After `Memory` everything is as before.
    pub fn start(&mut self, tid: Tid, follows: Seq, meta: FileMeta) -> Result<(), Memory>
        requires { greatest_tid self.old.unacked < tid }
        ensures ok { OnOk result (self.new ≡ started tid follows meta self.old) }
        ensures err { OnErr result (self.new ≡ self.old) }
    {
        self.unacked.push(Sent { tid, follows, meta })?;
        self.dirty = Caps::none();
        Ok(())
    }

    /// The server has acknowledged the flush of this number, and so each one before it: they are
    /// retired. `Unknown` exactly where no unacknowledged flush has the number; then nothing changes.
    pub fn ack(&mut self, tid: Tid) -> FlushAck
        ensures answer { result ≡ answer tid self.old.unacked }
        ensures after { self.new ≡ record self.old { unacked = after_ack tid self.old.unacked } }

        ensures unknown { (result ≡ acks.Unknown) ↔ (has_tid tid self.old.unacked ≡ false) }
        ensures count { IfRetired result (λ n. n + length self.new.unacked ≡ length self.old.unacked) }
    {
        if !self.is_unacked(tid) {
            return FlushAck::Unknown;
        }
        let before = self.unacked.len();
        let last = tid.get();
        self.unacked.retain(|sent| sent.tid.get() > last);
        FlushAck::Retired {
            count: (before - self.unacked.len()) as u32,
        }
    }

    // Whether an unacknowledged flush has this number.
    fn is_unacked(&self, tid: Tid) -> bool
        ensures { result ≡ has_tid tid self.now.unacked }
    {
        self.unacked.iter().any(|sent| sent.tid == tid)
    }

    /// The unacknowledged flushes, in the order of their numbers.
    pub fn unacked(&self) -> &[Sent]
        ensures value { result.now ≡ self.now.unacked }
        ensures order { IsRising self.now.unacked }
    {
        self.unacked.as_slice()
    }
}
