//! The parts of a client's and a server's state, each a plain record with its steps: both ends of a
//! file's capabilities, and a live reference. The journal's definitions and the crates that do the
//! work speak of the same records, so that neither copies the other.
#![tactic(auto)]

mod capabilities;
mod laws;
mod references;

pub use capabilities::{ClientCaps, ServerCaps};
pub use laws::values_may_cross_threads;
pub use references::Live;
