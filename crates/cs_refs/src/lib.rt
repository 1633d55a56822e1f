//! The live references of a client's callers. A reference is a caller's right to use a file's bits
//! from its begin to its end; a caller's references are numbered from 1, and a number is never drawn
//! twice. Contracts see the live references as a list, oldest first.
#![tactic(auto)]

mod fault;
mod laws;
mod table;
mod used;

pub use fault::RefFault;
pub use laws::values_may_cross_threads;
pub use table::Refs;
