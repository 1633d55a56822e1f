//! One file, as the client keeps it: its snapshot context, the client's end of its capabilities, its
//! cap snaps, its dirty metadata and unacknowledged flushes, and its metadata as the client has written
//! it. Each call gives the file's answer to what callers and the server want of it. Contracts see a
//! record of these parts. No bytes are cached: each write goes straight to the object store.
#![tactic(auto)]

mod answers;
mod inode;
mod laws;
mod operations;
mod reports;

pub use answers::{Allow, ChmodStep, FlushStep, SnapStep, WriteStep};
pub use inode::{FIRST_MODE, Inode};
pub use laws::{operations_fit_their_objects, values_may_cross_threads};
