// The numbers that snapshots and removals drew from one counter.
ghost use Rattle.std.specs.Prelude.{◌≡◌, ℕ, ◌+◌, ◌-◌, ◌==◌, ◌<◌, [], length, if◌then◌else◌, IfOk, OnOk, OnErr};
ghost use Rattle.cs_trim.specs.Clones.{any_standing, is_standing};
ghost use Rattle.cs_trim.specs.Held.{status_in};

use crate::object::Span;
use cs_ids::{Memory, Seq, Snap};
use std::alloc::Global;
use std::marker::Model;

/// What is known of a number.
#[derive(Clone, Copy, PartialEq, Eq, Debug)]
pub enum SnapStatus {
    /// No snapshot has it.
    NoSnap,
    /// Its snapshot was removed.
    Gone,
    /// Its snapshot stands.
    Standing,
}

impl SnapStatus {
    fn is_standing(self) -> bool
        ensures { result ≡ is_standing self }
    {
        matches!(self, SnapStatus::Standing)
    }
}

/// The numbers drawn so far, from 1 on. Contracts see the status of each.
#[derive(Drop)]
pub struct Numbers {
    statuses: Vec<SnapStatus>,
}

impl Model for Numbers {
    ghost use Rattle.std.specs.Prelude.{List, ◌≤◌, length};
    ghost use Rattle.cs_trim.specs.declared.numbers.SnapStatus.{SnapStatus};

    ghost Value = { List SnapStatus };

    ghost view = { λ n. n.statuses.items };

    ghost invariant = { λ n. length n.statuses.items ≤ 99999 };
}

impl Numbers {
    /// No number was drawn. It takes no memory.
    pub fn new(alloc: Global) -> Self
        ensures { result ≡ [] }
    {
        Numbers {
            statuses: Vec::new(alloc),
        }
    }

    /// The last number, 0 if none was drawn.
    pub fn last(&self) -> Seq
        ensures { result ≡ length self.now }
    {
        match Seq::new(self.statuses.len() as u64) {
            Some(seq) => seq,
            None => unreachable!(),
        }
    }

    /// What is known of a number.
    pub fn status(&self, number: u64) -> SnapStatus
        ensures { result ≡ status_in self.now number }
    {
        let Some(index) = number.checked_sub(1) else {
            return SnapStatus::NoSnap;
        };
        match self.statuses.get(index as usize) {
            Some(status) => *status,
            None => SnapStatus::NoSnap,
        }
    }

    /// Whether a standing snapshot has a number in the span.
    #[tactic(auto, using(crate::proofs::Standing::stands_here, crate::proofs::Standing::stands_later, crate::proofs::Standing::none_left))]
    pub fn any_standing(&self, span: &Span) -> bool
        ensures { result ≡ any_standing (status_in self.now) span.now.above (span.now.upto - span.now.above) }
    {
        let last = span.upto.get();
        for number in span.above.get()..last {
            if self.status(number + 1).is_standing() {
                return true;
            }
        }
        false
    }

    /// Draws a number for a snapshot.
    pub fn take(&mut self) -> Result<Snap, Memory>
        requires { length self.old < 10000 }
        ensures number { IfOk result (λ s. s ≡ length self.old + 1) }
        ensures count { OnOk result (length self.new ≡ length self.old + 1) }
        ensures status { OnOk result ((n : ℕ) → status_in self.new n
            ≡ (if n == length self.old + 1 then SnapStatus.Standing else status_in self.old n)) }
        ensures err { OnErr result (self.new ≡ self.old) }
    {
        let number = Snap::after(self.statuses.len() as u64);
        self.statuses.push(SnapStatus::Standing)?;
        Ok(number)
    }

    /// Draws a number for the removal of a snapshot, which is gone then.
    pub fn remove(&mut self, snap: &Snap) -> Result<Snap, Memory>
        requires room { length self.old < 10000 }
        requires standing { status_in self.old snap.now ≡ SnapStatus.Standing }
        ensures number { IfOk result (λ s. s ≡ length self.old + 1) }
        ensures count { OnOk result (length self.new ≡ length self.old + 1) }
        ensures status { OnOk result ((n : ℕ) → status_in self.new n
            ≡ (if n == snap.now then SnapStatus.Gone else status_in self.old n)) }
        ensures err { OnErr result (self.new ≡ self.old) }
    {
        let number = Snap::after(self.statuses.len() as u64);
        self.statuses.push(SnapStatus::NoSnap)?;
        let index = snap.get() as usize - 1;
        self.statuses[index] = SnapStatus::Gone;
        Ok(number)
    }
}
