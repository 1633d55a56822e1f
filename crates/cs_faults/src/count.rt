// Counts of faults.
ghost use Rattle.std.specs.Prelude.{◌≡◌, ◌≤◌};
ghost use Rattle.cs_faults.specs.Counts.{raised};

use std::marker::Model;

/// How often a device has failed. The count never falls, and stays at the greatest u64. Contracts
/// see the number.
#[derive(Drop)]
pub struct FaultCount {
    faults: u64,
}

impl Model for FaultCount {
    ghost use Rattle.std.specs.Prelude.{ℕ};

    ghost Value = { ℕ };

    ghost view = { λ c. c.faults };
}

impl FaultCount {
    /// The count of a device that has not failed.
    pub fn new() -> Self
        ensures { result ≡ 0 }
    {
        FaultCount { faults: 0 }
    }

    /// Counts one more fault.
    pub fn raise(&mut self)
        ensures raised { self.new ≡ raised self.old }
        ensures later { self.old ≤ self.new }
    {
        self.faults = self.faults.saturating_add(1);
    }
}
