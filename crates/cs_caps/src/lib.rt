//! Both ends of one file's capabilities: the client's, which acknowledges a revocation only when
//! none of the bits that were taken back is in use, and the server's, which believes a bit to be
//! held until the acknowledgement of its last message. No call needs memory.
#![tactic(auto)]

mod client;
mod laws;
mod server;

pub use client::{Cap, Done};
pub use laws::values_may_cross_threads;
pub use server::Held;
