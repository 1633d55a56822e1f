// The server's end, after the capabilities documentation of CephFS and the comments of Linux's
// fs/ceph/caps.c.
ghost use Rattle.std.specs.Prelude.{◌≡◌, ◌<◌};
ghost use Rattle.cs_parts.specs.Capabilities.{adopted, no_server_caps, granted, revoked};
ghost use Rattle.cs_caps.specs.Server.{acked_by};

use cs_bits::Caps;
use cs_ids::Seq;
use cs_parts::ServerCaps;
use std::marker::Model;

/// The server's end of one file's capabilities.
#[derive(Drop)]
pub struct Held {
    caps: ServerCaps,
}

impl Model for Held {
    ghost use Rattle.cs_parts.specs.declared.capabilities.ServerCaps.{ServerCaps};

    ghost Value = { ServerCaps };

    ghost view = { λ s. s.caps };
}

impl Held {
    /// No capabilities, before the first grant.
    pub fn new() -> Self
        ensures { result ≡ no_server_caps }
    {
        Held {
            caps: ServerCaps::none(),
        }
    }

    /// Adds bits to what is given and held, raises the greatest end of a write to `max` bytes, if
    /// that is greater, and draws the next message's number.
    pub fn grant(&mut self, bits: Caps, max: u32)
        requires { self.old.seq < 99998 }
        ensures { self.new ≡ granted self.old bits max }
    {
        self.caps = self.caps.granted(bits, max);
    }

    /// Takes bits from what is given, and draws the next message's number. The bits stay held until
    /// the client acknowledges that message or a later one.
    pub fn revoke(&mut self, bits: Caps)
        requires { self.old.seq < 99998 }
        ensures { self.new ≡ revoked self.old bits }
    {
        self.caps = self.caps.revoked(bits);
    }

    /// Takes an acknowledgement of the message `seq`: where that is the last message, the client
    /// holds these bits alone. The acknowledgement of any other message changes nothing.
    pub fn acked(&mut self, seq: Seq, bits: Caps)
        ensures { self.new ≡ acked_by self.old seq bits }
    {
        if seq == self.caps.seq {
            self.caps.held = bits;
        }
    }

    /// Takes what a client reports in a new session: what was issued to it is given, what it
    /// implements is held, its `max` is the greatest end of a write, in bytes, and messages are
    /// counted anew.
    pub fn adopt(&mut self, issued: Caps, implemented: Caps, max: u32)
        ensures { self.new ≡ adopted issued implemented max }
    {
        self.caps = ServerCaps {
            given: issued,
            held: implemented,
            seq: Seq::zero(),
            max,
        };
    }

    /// What the client may have.
    pub fn given(&self) -> Caps
        ensures { result ≡ self.now.given }
    {
        self.caps.given
    }

    /// What the client may still be using, as far as the server knows.
    pub fn held(&self) -> Caps
        ensures { result ≡ self.now.held }
    {
        self.caps.held
    }

    /// The number of the last message of this session, 0 where there is none.
    pub fn seq(&self) -> Seq
        ensures { result ≡ self.now.seq }
    {
        self.caps.seq
    }

    /// How far the file may grow, in bytes.
    pub fn max(&self) -> u32
        ensures { result ≡ self.now.max }
    {
        self.caps.max
    }
}
