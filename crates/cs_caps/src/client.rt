// The client's end, after the capabilities documentation of CephFS and the comments of Linux's
// fs/ceph/caps.c.
ghost use Rattle.std.specs.Prelude.{◌≡◌};
ghost use Rattle.cs_parts.specs.Capabilities.{no_client_caps, delivered, restarted};
ghost use Rattle.cs_caps.specs.Client.{completion, completed, GivesUpUnused, LeavesNothing};

use cs_bits::Caps;
use cs_ids::Seq;
use cs_parts::ClientCaps;
use std::marker::Model;

/// The client's end of one file's capabilities.
#[derive(Drop)]
pub struct Cap {
    caps: ClientCaps,
}

impl Model for Cap {
    ghost use Rattle.cs_parts.specs.declared.capabilities.ClientCaps.{ClientCaps};

    ghost Value = { ClientCaps };

    ghost view = { λ c. c.caps };
}

/// What the client does about what it has not acknowledged.
#[derive(Clone, Copy, PartialEq, Eq, Debug)]
pub enum Done {
    /// It tells the server that it now uses these bits alone, under the number of the last message.
    Ack { seq: Seq, bits: Caps },
    /// It waits: these bits were taken back and are in use.
    Hold { bits: Caps },
    /// It has acknowledged all that it was told.
    Nothing,
}

impl Cap {
    /// No capabilities, before the first message.
    pub fn new() -> Self
        ensures { result ≡ no_client_caps }
    {
        Cap {
            caps: ClientCaps::none(),
        }
    }

    /// Takes a message of the server: the bits that the client now has, the message's number and
    /// the greatest end of a write, in bytes. Bits that were taken back stay implemented.
    pub fn deliver(&mut self, bits: Caps, seq: Seq, max: u32)
        ensures { self.new ≡ delivered self.old bits seq max }
    {
        self.caps = self.caps.delivered(bits, seq, max);
    }

    /// Acknowledges what was issued, where something is left to acknowledge and no bit that was
    /// taken back is among the used ones. Otherwise nothing changes.
    pub fn complete(&mut self, used: Caps) -> Done
        ensures answer { result ≡ completion self.old used }
        ensures after { self.new ≡ completed self.old result }
        ensures unused { GivesUpUnused self.old used result }
        ensures nothing_left { LeavesNothing self.new result }
    {
        if self.caps.is_complete() {
            return Done::Nothing;
        }
        let held_back = self.caps.held_back(used);
        if !held_back.is_none() {
            return Done::Hold { bits: held_back };
        }
        self.caps = self.caps.acknowledged();
        Done::Ack {
            seq: self.caps.seq,
            bits: self.caps.issued,
        }
    }

    /// Begins a new session, in which no message has come yet and none was acknowledged.
    pub fn restart(&mut self)
        ensures { self.new ≡ restarted self.old }
    {
        self.caps.seq = Seq::zero();
        self.caps.acked = Seq::zero();
    }

    /// What the server let the client have, by its last delivered message.
    pub fn issued(&self) -> Caps
        ensures { result ≡ self.now.issued }
    {
        self.caps.issued
    }

    /// What the client may still be using: all that was issued since the last acknowledgement.
    pub fn implemented(&self) -> Caps
        ensures { result ≡ self.now.implemented }
    {
        self.caps.implemented
    }

    /// The number of the last delivered message of this session, 0 where there is none.
    pub fn seq(&self) -> Seq
        ensures { result ≡ self.now.seq }
    {
        self.caps.seq
    }

    /// The number that was acknowledged last in this session, 0 where there is none.
    pub fn acked(&self) -> Seq
        ensures { result ≡ self.now.acked }
    {
        self.caps.acked
    }

    /// How far the file may grow, in bytes.
    pub fn max(&self) -> u32
        ensures { result ≡ self.now.max }
    {
        self.caps.max
    }
}
