// The context of a realm.
ghost use Rattle.std.specs.Prelude.{◌≡◌, ℕ, ◌≤◌, ◌↔◌, nat_le, [], ◌++◌, filter, All, Contains, IfOk, IfSome, IsNone, IsTrue, slice_get};
ghost use Rattle.cs_snapctx.specs.Context.{IsDescending, IsRealmContext, merged, empty_context};

use crate::SnapList;
use cs_ids::{Memory, Seq, Snap};
use std::alloc::{AllocError, Global};
use std::marker::Model;

/// What a write is made under: the snapshots that cover the file, and a number `seq` that grows
/// with each change of them.
#[derive(Debug, Drop)]
pub struct SnapContext {
    seq: Seq,
    snaps: SnapList,
}

impl Model for SnapContext {
    ghost use Rattle.cs_snapctx.specs.Context.{Context, IsDescending};

    ghost Value = { Context };

    ghost view = { λ c. record { seq = c.seq; snaps = c.snaps } };

    ghost invariant = { λ c. IsDescending c.snaps };
}

impl PartialEq for SnapContext {
    ghost use Rattle.std.specs.Prelude.{◌≡◌, ◌&&◌, ◌==◌, ◌↔◌, IsTrue, nat_eq};
    ghost use Rattle.std.specs.Cmp.Lexicographic.{pointwise};
    ghost use Rattle.std.specs.Cmp.Rules.{comparing};
    ghost use Rattle.std.proofs.Common.{rules};

    ghost eq = { λ a b. nat_eq a.seq b.seq && pointwise nat_eq a.snaps b.snaps };

    ghost laws = { Prim.search (comparing, rules) };

    fn eq(&self, other: &Self) -> bool
        ensures value { result ≡ (nat_eq self.now.seq other.now.seq
            && pointwise nat_eq self.now.snaps other.now.snaps) }
        ensures equal { IsTrue result ↔ (self.now ≡ other.now) }
    {
        self.seq == other.seq && self.snaps == other.snaps
    }
}

impl Eq for SnapContext {
    ghost use Rattle.std.specs.Cmp.Rules.{comparing};
    ghost use Rattle.std.proofs.Common.{rules};

    ghost laws = { Prim.search (comparing, rules) };
}

impl SnapContext {
    /// The context before any snapshot. It takes no memory.
    pub fn empty(alloc: Global) -> Self
        ensures { result ≡ empty_context }
    {
        SnapContext {
            seq: Seq::zero(),
            snaps: SnapList::new(alloc),
        }
    }

    /// The number of the context.
    pub fn seq(&self) -> Seq
        ensures { result ≡ self.now.seq }
    {
        self.seq
    }

    /// The snapshots, the newest first.
    pub fn snaps(&self) -> &[Snap]
        ensures value { result.now ≡ self.now.snaps }
        ensures order { IsDescending result.now }
    {
        self.snaps.as_slice()
    }

    /// Whether snapshot `s` is one of them.
    pub fn contains(&self, s: Snap) -> bool
        ensures { IsTrue result ↔ Contains self.now.snaps s }
    {
        self.snaps.as_slice().contains(&s)
    }

    /// The newest of the snapshots, which is the first and the greatest, or None exactly where
    /// there is none.
    pub fn newest(&self) -> Option<Snap>
        ensures none { IsNone result ↔ (self.now.snaps ≡ []) }
        ensures first { result ≡ slice_get self.now.snaps 0 }
        ensures greatest { IfSome result (λ s. All (λ t. t ≤ s) self.now.snaps) }
    {
        self.snaps.as_slice().first().copied()
    }

    /// The same context once more.
    pub fn copy(&self) -> Result<Self, Memory>
        ensures { IfOk result (λ c. c ≡ self.now) }
    {
        Ok(SnapContext {
            seq: self.seq,
            snaps: self.snaps.copy()?,
        })
    }

    /// The context of a realm. Its snapshots are those of the realm itself, `own`, those of its
    /// parents of earlier times, `prior`, and those of its parent's context that are at least
    /// `since`; its `seq` is the greater of `own_seq`, the number of the realm's last snapshot or
    /// removal, and the parent's. `own` and `prior` may have any order, and numbers more than once.
    pub fn merge(
        alloc: Global,
        own: &[Snap],
        prior: &[Snap],
        own_seq: Seq,
        parent: &SnapContext,
        since: Snap,
    ) -> Result<Self, Memory>
        ensures meaning { IfOk result (IsRealmContext own.now prior.now own_seq parent.now since) }
        ensures value { IfOk result (λ c. c ≡ merged own.now prior.now own_seq parent.now since) }
    {
        let all = gathered(alloc, own, prior, parent.snaps.as_slice(), since)?;
        Ok(SnapContext {
            seq: own_seq.max(parent.seq),
            snaps: SnapList::from_vec(newest_first(all)),
        })
    }
}

// The numbers of `own` and `prior`, and those of `parent` that are at least `since`.
fn gathered(
    alloc: Global,
    own: &[Snap],
    prior: &[Snap],
    parent: &[Snap],
    since: Snap,
) -> Result<Vec<Snap>, AllocError>
    ensures { IfOk result (λ all. all.items ≡ (own.now ++ prior.now) ++ filter (nat_le since) parent.now) }
{
    let mut all = Vec::from_slice(alloc, own)?;
    all.extend_from_slice(prior)?;
    for s in parent {
        if since <= *s {
            all.push(*s)?;
        }
    }
    Ok(all)
}

// The same numbers in descending order, each once.
fn newest_first(mut snaps: Vec<Snap>) -> Vec<Snap>
    ensures order { IsDescending result.items }
    ensures members { (s : ℕ) → Contains result.items s ↔ Contains snaps.items s }
{
    snaps.sort_unstable();
    snaps.dedup();
    snaps.reverse();
    snaps
}
