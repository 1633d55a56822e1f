//! Faults of devices: how often a device has failed, and for the faulty forms of tests which of its
//! calls fail.
#![tactic(auto)]

mod count;
mod laws;
mod plan;

pub use count::FaultCount;
pub use laws::values_may_cross_threads;
pub use plan::FaultPlan;
