// Both ends of a file's capabilities, after the capabilities documentation of CephFS and the
// comments of Linux's fs/ceph/caps.c.
ghost use Rattle.std.specs.Prelude.{◌≡◌, ◌<◌};
ghost use Rattle.cs_parts.specs.Capabilities.{no_client_caps, no_server_caps, granted, revoked, delivered, acknowledged, held_back, is_complete};

use cs_bits::Caps;
use cs_ids::Seq;

/// What the client keeps of a file's capabilities.
#[derive(Clone, Copy)]
pub struct ClientCaps {
    /// What the server let the client have, by its last delivered message.
    pub issued: Caps,
    /// What the client may still be using: all that was issued since the last acknowledgement.
    pub implemented: Caps,
    /// The number of the last delivered message, 0 where there is none.
    pub seq: Seq,
    /// The number that was acknowledged last, 0 where there is none.
    pub acked: Seq,
    /// How far the file may grow, in bytes: 0 to 1,048,576 in a run.
    pub max: u32,
}

/// What the server keeps of a file's capabilities.
#[derive(Clone, Copy)]
pub struct ServerCaps {
    /// What the client may have.
    pub given: Caps,
    /// What the client may still be using, as far as the server knows.
    pub held: Caps,
    /// The number of the last message that was sent, 0 where there is none.
    pub seq: Seq,
    /// How far the file may grow, in bytes: 0 to 1,048,576 in a run.
    pub max: u32,
}

impl ClientCaps {
    /// No capabilities, before the first message.
    pub fn none() -> Self
        ensures { result ≡ no_client_caps }
    {
        ClientCaps {
            issued: Caps::none(),
            implemented: Caps::none(),
            seq: Seq::zero(),
            acked: Seq::zero(),
            max: 0,
        }
    }

    /// After a delivered message with these bits, this number and this greatest end.
    pub fn delivered(&self, bits: Caps, seq: Seq, max: u32) -> Self
        ensures { result ≡ delivered self.now bits seq max }
    {
        ClientCaps {
            issued: bits,
            implemented: self.implemented.union(bits),
            seq,
            acked: self.acked,
            max,
        }
    }

    /// After the issued bits were acknowledged under the last message's number.
    pub fn acknowledged(&self) -> Self
        ensures { result ≡ acknowledged self.now self.now.issued self.now.seq }
    {
        ClientCaps {
            issued: self.issued,
            implemented: self.issued,
            seq: self.seq,
            acked: self.seq,
            max: self.max,
        }
    }

    /// Whether nothing is left to acknowledge.
    pub fn is_complete(&self) -> bool
        ensures { result ≡ is_complete self.now }
    {
        self.implemented == self.issued && self.acked == self.seq
    }

    /// The bits that were taken back and are among those in use.
    pub fn held_back(&self, used: Caps) -> Caps
        ensures { result ≡ held_back self.now used }
    {
        self.implemented.minus(self.issued).meet(used)
    }
}

impl ServerCaps {
    /// No capabilities, before the first grant.
    pub fn none() -> Self
        ensures { result ≡ no_server_caps }
    {
        ServerCaps {
            given: Caps::none(),
            held: Caps::none(),
            seq: Seq::zero(),
            max: 0,
        }
    }

    /// After a grant of bits, with a greatest end in bytes. The last message's number is below 99,998.
    pub fn granted(&self, bits: Caps, max: u32) -> Self
        requires { self.now.seq < 99998 }
        ensures { result ≡ granted self.now bits max }
    {
        ServerCaps {
            given: self.given.union(bits),
            held: self.held.union(bits),
            seq: Seq::after(self.seq.get()),
            max: self.max.max(max),
        }
    }

    /// After a revocation of bits. The last message's number is below 99,998.
    pub fn revoked(&self, bits: Caps) -> Self
        requires { self.now.seq < 99998 }
        ensures { result ≡ revoked self.now bits }
    {
        ServerCaps {
            given: self.given.minus(bits),
            held: self.held,
            seq: Seq::after(self.seq.get()),
            max: self.max,
        }
    }
}
