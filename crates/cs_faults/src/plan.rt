// Which calls of a device fail.
ghost use Rattle.std.specs.Prelude.{◌≡◌, ◌==◌, ◌≤◌, IfOk, is_err};
ghost use Rattle.std.specs.List.{list_any};
ghost use Rattle.cs_ids.specs.Devices.{HasCause};
ghost use Rattle.cs_faults.specs.Counts.{raised};
ghost use Rattle.cs_faults.specs.Plans.{first_call, after_call, is_listed};

use crate::FaultCount;
use cs_ids::{Failed, Memory};
use std::alloc::Global;
use std::marker::Model;

/// Which calls of a device fail, and how often it has failed. Contracts see the numbers of the calls
/// that fail, the number of the next call, and the count of faults.
#[derive(Drop)]
pub struct FaultPlan {
    listed: Vec<u32>,
    next: u64,
    faults: FaultCount,
}

impl Model for FaultPlan {
    ghost use Rattle.cs_faults.specs.Plans.{CallPlan};

    ghost Value = { CallPlan };

    ghost view = { λ p. record { listed = p.listed.items; next = p.next; faults = p.faults } };
}

impl FaultPlan {
    /// The plan of a device whose calls with these numbers fail, counted from 1. None was made yet.
    pub fn new(alloc: Global, calls: &[u32]) -> Result<Self, Memory>
        ensures { IfOk result (λ p. p ≡ first_call calls.now) }
    {
        Ok(FaultPlan {
            listed: Vec::from_slice(alloc, calls)?,
            next: 1,
            faults: FaultCount::new(),
        })
    }

    /// Counts a call. It is `Failed`, and a fault is counted, exactly where the call is listed.
    pub fn count_call(&mut self) -> Result<(), Failed>
        ensures listed { is_err result ≡ is_listed self.old }
        ensures counted { self.new ≡ after_call (is_listed self.old) self.old }
        ensures cause { HasCause self.old.faults self.new.faults result }
    {
        let number = self.next;
        self.next = number.saturating_add(1);
        if contains(self.listed.as_slice(), number) {
            self.count_fault();
            Err(Failed)
        } else {
            Ok(())
        }
    }

    /// Counts a fault of a call that was counted before, as where one that isn't listed finds no
    /// memory.
    pub fn count_fault(&mut self)
        ensures raised { self.new ≡ record self.old { faults = raised self.old.faults } }
        ensures later { self.old.faults ≤ self.new.faults }
    {
        self.faults.raise();
    }
}

fn contains(calls: &[u32], number: u64) -> bool
    ensures { result ≡ list_any (λ call. call == number) calls.now }
{
    calls.iter().any(|call| u64::from(*call) == number)
}
