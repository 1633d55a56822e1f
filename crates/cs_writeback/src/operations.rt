// The operations that were sent, after the comments of Linux's fs/ceph/addr.c and net/ceph/osd_client.c.
ghost use Rattle.std.specs.Prelude.{◌≡◌, ℕ, ◌==◌, ◌<◌, ◌↔◌, not, [], Some, None, IsNone, IsTrue, OnErr, OnOk};
ghost use Rattle.std.specs.Option.{option_map, option_copied};
ghost use Rattle.cs_states.specs.declared.delivery.Resend.TheVariants as resends;
ghost use Rattle.cs_states.specs.Delivery.{after_arrival, after_loss, after_reply, after_resend, copies_of, on_the_way, replies_of, reply_to, resend_answer};
ghost use Rattle.cs_writeback.specs.Operations.{AddsOperation, TakesStep, delivery_at, first_sent, operation_at};

use cs_ids::{Memory, Tid};
use cs_laws::ObjOp;
use cs_states::{Delivery, Reply, Resend};
use std::alloc::Global;
use std::collections::BTreeMap;
use std::marker::Model;

// At most so many copies of one operation are on the way at once.
const MAX_COPIES: u32 = 8;

/// An operation that was sent, and how far it has come.
#[derive(Drop)]
pub struct SentOp {
    pub op: ObjOp,
    pub delivery: Delivery,
}

/// The operations that write-back has sent. One that is acknowledged stays: copies and replies of it
/// may still be on the way. Contracts see them as a list of pairs, a number and an operation, in the
/// order of the numbers.
#[derive(Drop)]
pub struct OpsInFlight {
    operations: BTreeMap<u64, SentOp>,
}

impl Model for OpsInFlight {
    ghost use Rattle.std.specs.Prelude.{List, ℕ};
    ghost use Rattle.cs_writeback.specs.declared.operations.SentOp.{SentOp};

    ghost Value = { List (ℕ × SentOp) };

    ghost view = { λ s. s.operations.entries };
}

impl OpsInFlight {
    /// No operations. It takes no memory.
    pub fn new(alloc: Global) -> Self
        ensures { result ≡ [] }
    {
        OpsInFlight {
            operations: BTreeMap::new(alloc),
        }
    }

    /// An operation is sent under a number that none before it had: one copy of it is on the way. After
    /// `Memory` the operations are as before.
    pub fn send(&mut self, op: ObjOp) -> Result<(), Memory>
        requires { operation_at self.old op.tid ≡ None }
        ensures ok { OnOk result (AddsOperation self.old self.new (first_sent op)) }
        ensures err { OnErr result (self.new ≡ self.old) }
    {
        let tid = op.tid.get();
        let delivery = Delivery {
            copies: 1,
            replies: 0,
            acked: false,
        };
        self.operations.insert(tid, SentOp { op, delivery })?;
        Ok(())
    }

    /// The operation of a number, or None exactly where none was sent under it.
    pub fn op(&self, t: Tid) -> Option<&ObjOp>
        ensures { option_copied result ≡ option_map (λ x. x.op) (operation_at self.now t) }
    {
        let sent = self.operations.get(&t.get())?;
        Some(&sent.op)
    }

    /// A copy of the operation comes to the store, which replies. False exactly where no copy is on the
    /// way; then nothing changes.
    pub fn deliver(&mut self, t: Tid) -> bool
        requires { replies_of (delivery_at self.old t) < 4294967295 }
        ensures found { result ≡ not (copies_of (delivery_at self.old t) == 0) }
        ensures operations { TakesStep self.old self.new t after_arrival }
    {
        let Some(sent) = self.operations.get_mut(&t.get()) else {
            return false;
        };
        if sent.delivery.copies == 0 {
            return false;
        }
        sent.delivery.copies -= 1;
        sent.delivery.replies += 1;
        true
    }

    /// A reply to the operation comes to the client: `Unknown` exactly where none is on the way, and
    /// then nothing changes; else `Late` exactly where one came before.
    pub fn reply(&mut self, t: Tid) -> Reply
        ensures answer { result ≡ reply_to (delivery_at self.old t) }
        ensures operations { TakesStep self.old self.new t after_reply }
    {
        let Some(sent) = self.operations.get_mut(&t.get()) else {
            return Reply::Unknown;
        };
        if sent.delivery.replies == 0 {
            return Reply::Unknown;
        }
        let acked = sent.delivery.acked;
        sent.delivery.replies -= 1;
        sent.delivery.acked = true;
        if acked { Reply::Late } else { Reply::First }
    }

    /// A reply, or else a copy, of the operation is lost. False exactly where none is on the way; then
    /// nothing changes.
    pub fn lose(&mut self, t: Tid, reply: bool) -> bool
        ensures found { result ≡ not (on_the_way reply (delivery_at self.old t) == 0) }
        ensures operations { TakesStep self.old self.new t (after_loss reply) }
    {
        let Some(sent) = self.operations.get_mut(&t.get()) else {
            return false;
        };
        if reply {
            if sent.delivery.replies == 0 {
                return false;
            }
            sent.delivery.replies -= 1;
        } else {
            if sent.delivery.copies == 0 {
                return false;
            }
            sent.delivery.copies -= 1;
        }
        true
    }

    /// The operation is to be sent again, as one copy more: `Unknown` exactly where none was sent under
    /// the number, `Late` where it is acknowledged, `Copies` where 8 copies are on the way. These change
    /// nothing.
    pub fn resend(&mut self, t: Tid) -> Resend
        ensures answer { result ≡ resend_answer (delivery_at self.old t) }
        ensures operations { TakesStep self.old self.new t after_resend }
    {
        let Some(sent) = self.operations.get_mut(&t.get()) else {
            return Resend::Unknown;
        };
        if sent.delivery.acked {
            return Resend::Late;
        }
        if sent.delivery.copies >= MAX_COPIES {
            return Resend::Copies;
        }
        sent.delivery.copies += 1;
        Resend::Sent
    }

    /// Whether `resend` would answer `Copies`.
    pub fn is_full(&self, t: Tid) -> bool
        ensures { IsTrue result ↔ (resend_answer (delivery_at self.now t) ≡ resends.Copies) }
    {
        match self.operations.get(&t.get()) {
            None => false,
            Some(sent) => !sent.delivery.acked && sent.delivery.copies >= MAX_COPIES,
        }
    }
}
