// The table of live references.
ghost use Rattle.std.specs.Prelude.{◌≡◌, ℕ, ◌+◌, ◌<◌, ◌≤◌, ◌==◌, ◌↔◌, ◌++◌, [], ◌∷◌, length, is_some, if◌then◌else◌, IfOk, IfErr, OnErr};
ghost use Rattle.cs_parts.specs.References.{has_ref, ref_named, without_ref, used_in};
ghost use Rattle.cs_refs.specs.declared.fault.RefFault.TheVariants as faults;
ghost use Rattle.cs_refs.specs.Table.{begun_of, writers_of, IsCausedBy};

use crate::RefFault;
use crate::used::{used_by, writers_among};
use cs_bits::Caps;
use cs_ids::{Caller, Ino, RefNo, Seq};
use cs_parts::Live;
use indexmap::IndexMap;
use std::alloc::Global;
use std::marker::Model;

/// The most references that live at one moment.
const MOST_LIVE: usize = 256;

/// By what a reference is found: its caller, and its number among that caller's.
#[derive(Clone, Copy, PartialEq, Eq, Hash)]
struct Key {
    caller: Caller,
    number: RefNo,
}

/// The live references of all callers, and how many each caller has begun.
#[derive(Drop)]
pub struct Refs {
    // In the order of their begins.
    live: IndexMap<Key, Live>,
    // By the caller's number.
    begun: [u64; 33],
}

impl Model for Refs {
    ghost use Rattle.cs_refs.specs.Table.{RefTable};
    ghost use Rattle.indexmap.specs.IndexMap.{values};
    ghost use Rattle.cs_refs.specs.Entries.{AreEntries};

    ghost Value = { RefTable };

    ghost view = { λ t. record { live = values t.live; begun = t.begun } };

    ghost invariant = { λ t. AreEntries t.live.entries t.begun };
}

impl Refs {
    /// No references; no caller has begun one.
    pub fn new(alloc: Global) -> Self
        ensures live { result.live ≡ [] }
        ensures begun { (c : ℕ) → begun_of c result ≡ 0 }
    {
        Refs {
            live: IndexMap::new(alloc),
            begun: [0; 33],
        }
    }

    /// Begins a reference of a caller to a file, with the bits, the end in bytes up to which it may
    /// write and the `seq` of the file's snapshot context. Its number is one more than the count of
    /// the references that the caller has begun so far. After a fault everything is as before.
    pub fn begin(
        &mut self,
        caller: Caller,
        file: Ino,
        bits: Caps,
        end: u32,
        tag: Seq,
    ) -> Result<RefNo, RefFault>
        requires { begun_of caller self.old < 99998 }
        ensures number { IfOk result (λ n. n ≡ begun_of caller self.old + 1) }
        ensures live { IfOk result (λ n. self.new.live ≡ self.old.live
            ++ record { caller = caller; number = n; file = file; bits = bits; end = end; tag = tag } ∷ []) }
        ensures begun { IfOk result (λ n. (c : ℕ)
            → begun_of c self.new ≡ (if caller == c then n else begun_of c self.old)) }

        ensures full { (result ≡ Err (faults.Full 256)) ↔ (length self.old.live ≡ 256) }
        ensures cause { IfErr result (IsCausedBy self.old) }
        ensures few { length self.old.live ≤ 256 }
        ensures err { OnErr result (self.new ≡ self.old) }
    {
        if self.live.len() >= MOST_LIVE {
            return Err(RefFault::Full {
                live: MOST_LIVE as u32,
            });
        }
        let index = caller.get() as usize;
        let number = RefNo::after(self.begun[index]);
        let live = Live {
            caller,
            number,
            file,
            bits,
            end,
            tag,
        };
        self.live.insert(Key { caller, number }, live)?;
        self.begun[index] = number.get();
        Ok(number)
    }

    /// The caller's live reference of this number, or None exactly where there is none.
    pub fn find(&self, caller: Caller, number: RefNo) -> Option<Live>
        ensures found { result ≡ ref_named caller number self.now.live }
        ensures lives { is_some result ≡ has_ref caller number self.now.live }
    {
        self.live.get(&Key { caller, number }).copied()
    }

    /// Ends the caller's live reference of this number and gives it back, or None exactly where
    /// there is none. Its number is not drawn again.
    pub fn end(&mut self, caller: Caller, number: RefNo) -> Option<Live>
        ensures ended { result ≡ ref_named caller number self.old.live }
        ensures lived { is_some result ≡ has_ref caller number self.old.live }
        ensures live { self.new.live ≡ without_ref caller number self.old.live }
        ensures begun { self.new.begun ≡ self.old.begun }
    {
        self.live.shift_remove(&Key { caller, number })
    }

    /// The bits of all live references to a file.
    pub fn used(&self, file: Ino) -> Caps
        ensures { result ≡ used_in file self.now.live }
    {
        used_by(self.live.values().as_slice(), file)
    }

    /// How many live references to a file have the right to write.
    pub fn writers(&self, file: Ino) -> u32
        ensures { result ≡ writers_of file self.now.live }
    {
        writers_among(self.live.values().as_slice(), file) as u32
    }
}
