//! The namespace: which names stand in which directories, as operations are done one after another.
//!
//! Contracts see it as the definitions' record of its entries, of the files that were made, and of how
//! many directories and files operations have made.
#![tactic(auto)]

mod laws;
mod names;
mod setup;
mod table;

pub use laws::values_may_cross_threads;
pub use names::Names;
pub use setup::SetupStep;
