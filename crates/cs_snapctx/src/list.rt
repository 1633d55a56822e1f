// Lists of snapshot numbers.
ghost use Rattle.std.specs.Prelude.{◌≡◌, ◌≤◌, ◌↔◌, [], ◌∷◌, ◌++◌, length, IfOk, IsNone, IsTrue, OnErr, OnOk, slice_get};
ghost use Rattle.std.specs.Option.{option_copied};

use cs_ids::{Memory, Snap};
use std::alloc::Global;
use std::marker::Model;

/// A list of snapshot numbers, in any order, that grows at its end.
#[derive(Debug, Drop)]
pub struct SnapList {
    items: Vec<Snap>,
}

impl Model for SnapList {
    ghost use Rattle.std.specs.Prelude.{List, ℕ};

    ghost Value = { List ℕ };

    ghost view = { λ s. s.items.items };
}

impl PartialEq for SnapList {
    ghost use Rattle.std.specs.Prelude.{◌≡◌, ◌↔◌, IsTrue, nat_eq};
    ghost use Rattle.std.specs.Cmp.Lexicographic.{pointwise};
    ghost use Rattle.std.specs.Cmp.Rules.{comparing};
    ghost use Rattle.std.proofs.Common.{rules};

    ghost eq = { pointwise nat_eq };

    ghost laws = { Prim.search (comparing, rules) };

    fn eq(&self, other: &Self) -> bool
        ensures value { result ≡ pointwise nat_eq self.now other.now }
        ensures equal { IsTrue result ↔ (self.now ≡ other.now) }
    {
        self.as_slice() == other.as_slice()
    }
}

impl Eq for SnapList {
    ghost use Rattle.std.specs.Cmp.Rules.{comparing};
    ghost use Rattle.std.proofs.Common.{rules};

    ghost laws = { Prim.search (comparing, rules) };
}

impl SnapList {
    /// No numbers yet. It takes no memory.
    pub fn new(alloc: Global) -> Self
        ensures { result ≡ [] }
    {
        SnapList {
            items: Vec::new(alloc),
        }
    }

    /// The numbers of `items`, in their order. It takes no memory.
    pub fn from_vec(items: Vec<Snap>) -> Self
        ensures { result ≡ items.items }
    {
        SnapList { items }
    }

    /// The numbers, in their order. It takes no memory.
    pub fn into_vec(self) -> Vec<Snap>
        ensures { result.items ≡ self }
    {
        let SnapList { items } = self;
        items
    }

    /// The numbers, in their order.
    pub fn as_slice(&self) -> &[Snap]
        ensures { result.now ≡ self.now }
    {
        self.items.as_slice()
    }

    /// How many numbers there are.
    pub fn len(&self) -> usize
        ensures { result ≡ length self.now }
    {
        self.items.len()
    }

    /// Whether there is no number.
    pub fn is_empty(&self) -> bool
        ensures { IsTrue result ↔ (self.now ≡ []) }
    {
        self.items.is_empty()
    }

    /// The number at place `i`, counted from 0, or None exactly past the end.
    pub fn get(&self, i: usize) -> Option<&Snap>
        ensures value { option_copied result ≡ slice_get self.now i }
        ensures past_end { IsNone result ↔ (length self.now ≤ i) }
    {
        self.items.get(i)
    }

    /// Adds `x` at the end. After `Memory` the list is as before.
    pub fn push(&mut self, x: Snap) -> Result<(), Memory>
        ensures ok { OnOk result (self.new ≡ self.old ++ x ∷ []) }
        ensures err { OnErr result (self.new ≡ self.old) }
    {
        self.items.push(x)?;
        Ok(())
    }

    /// A list of the same numbers.
    pub fn copy(&self) -> Result<Self, Memory>
        ensures { IfOk result (λ s. s ≡ self.now) }
    {
        Ok(SnapList {
            items: Vec::from_slice(*self.items.allocator(), self.items.as_slice())?,
        })
    }
}
