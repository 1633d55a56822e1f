//! Sets of CephFS capabilities and their one text.
//!
//! A capability is what the metadata server lets a client do with a file. The fifteen that exist are
//! those of Ceph's `ceph_fs.h`, with its values; the value 2 stands for none. A set has one text, which
//! [`Caps::to_text`] and `Display` write and [`Caps::read`] reads: `p` for the pin, then the groups
//! `A` (owner and mode), `L` (links), `X` (extended attributes) and `F` (the file's bytes), each followed by its
//! letters in the order `s` shared, `x` exclusive, `c` cache, `r` read, `w` write, `b` buffer, `a` extend,
//! `l` lazy IO. A group without letters is left out, and the empty set is `-`. So `pAsLsXsFscr` is what a reader holds.
#![tactic(auto)]

ghost use Rattle.std.specs.Prelude.{⊤, ◌≡◌, ◌==◌, ◌<◌, ◌^◌, ◌↔◌, ◌⊎◌, ◌≢◌, ℕ, [], ◌∷◌, codes, IsTrue};
ghost use Rattle.cs_bits.specs.Bits.{
  Has,
  union,
  meet,
  minus,
  covers,
  no_caps,
  is_empty,
  fits,
  file_write,
};

pub mod laws;
mod text;

use bitflags::{Flag, Flags, bitflag_items};

/// A set of capabilities, as the sum of their values.
#[derive(Clone, Copy, PartialEq, Eq, Debug)]
pub struct Caps(u16);

bitflag_items! {
    impl Caps: u16 {
        /// `p`: the inode stays known to the client.
        const PIN = 1;
        /// `As`: owner and mode may be read.
        const AUTH_SHARED = 4;
        /// `Ax`: owner and mode may be changed.
        const AUTH_EXCL = 8;
        /// `Ls`: the count of links may be read.
        const LINK_SHARED = 16;
        /// `Lx`: the count of links may be changed.
        const LINK_EXCL = 32;
        /// `Xs`: extended attributes may be read.
        const XATTR_SHARED = 64;
        /// `Xx`: extended attributes may be changed.
        const XATTR_EXCL = 128;
        /// `Fs`: size and times may be read.
        const FILE_SHARED = 256;
        /// `Fx`: size and times may be changed.
        const FILE_EXCL = 512;
        /// `Fc`: bytes read may be kept in a cache.
        const FILE_CACHE = 1024;
        /// `Fr`: bytes may be read.
        const FILE_READ = 2048;
        /// `Fw`: bytes may be written.
        const FILE_WRITE = 4096;
        /// `Fb`: bytes written may be kept in a buffer.
        const FILE_BUFFER = 8192;
        /// `Fa`: the size may grow.
        const FILE_WREXTEND = 16384;
        /// `Fl`: lazy IO.
        const FILE_LAZYIO = 32768;
    }
}

impl Flags for Caps {
    type Bits = u16;

    ghost exact = { ⊤ };

    ghost table = { (codes "PIN", 1) ∷ (codes "AUTH_SHARED", 4) ∷ (codes "AUTH_EXCL", 8) ∷ (codes "LINK_SHARED", 16)
        ∷ (codes "LINK_EXCL", 32) ∷ (codes "XATTR_SHARED", 64) ∷ (codes "XATTR_EXCL", 128) ∷ (codes "FILE_SHARED", 256)
        ∷ (codes "FILE_EXCL", 512) ∷ (codes "FILE_CACHE", 1024) ∷ (codes "FILE_READ", 2048) ∷ (codes "FILE_WRITE", 4096)
        ∷ (codes "FILE_BUFFER", 8192) ∷ (codes "FILE_WREXTEND", 16384) ∷ (codes "FILE_LAZYIO", 32768) ∷ [] };

    ghost set_of = { λ c. c.0 };

    fn flags<'a>() -> &'a [Flag<Caps>] {
        Caps::FLAGS
    }

    fn bits(&self) -> u16 {
        self.0
    }

    fn from_bits_retain(bits: u16) -> Caps {
        Caps(bits)
    }
}

impl Caps {
    /// The empty set.
    pub fn none() -> Caps
        ensures { result ≡ no_caps }
    {
        Caps(0)
    }

    /// The capabilities of either set.
    pub fn union(self, other: Caps) -> Caps
        ensures value { result ≡ union self other }
        ensures members { (k : ℕ) → Has result k ↔ (Has self k ⊎ Has other k) }
    {
        Flags::union(self, other)
    }

    /// The capabilities of both sets.
    pub fn meet(self, other: Caps) -> Caps
        ensures value { result ≡ meet self other }
        ensures members { (k : ℕ) → Has result k ↔ (Has self k × Has other k) }
    {
        self.intersection(other)
    }

    /// The capabilities of this set that are not in the other.
    pub fn minus(self, other: Caps) -> Caps
        ensures value { result ≡ minus self other }
        ensures members { (k : ℕ) → Has result k ↔ (Has self k × ¬ (Has other k)) }
    {
        self.difference(other)
    }

    /// Whether each capability of the other set is in this one.
    pub fn covers(self, other: Caps) -> bool
        ensures value { result ≡ covers self other }
        ensures members { IsTrue result ↔ ((k : ℕ) → Has other k → Has self k) }
    {
        self.contains(other)
    }

    /// Whether the set is empty.
    pub fn is_none(self) -> bool
        ensures value { result ≡ is_empty self }
        ensures members { IsTrue result ↔ ((k : ℕ) → ¬ (Has self k)) }
    {
        self.0 == 0
    }

    /// Whether the set has `Fw`.
    pub fn has_write(self) -> bool
        ensures { result ≡ covers self file_write }
    {
        self.contains(Caps::FILE_WRITE)
    }

    /// Whether each bit of the set is a capability. `Flags::from_bits_retain` can make a set with another bit.
    pub fn fits(self) -> bool
        ensures value { result ≡ fits self }
        ensures members { IsTrue result ↔ ((k : ℕ) → Has self k → (k < 16) × (k ≢ 1)) }
    {
        !self.contains_unknown_bits()
    }
}
