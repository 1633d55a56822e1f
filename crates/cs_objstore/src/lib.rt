//! Stores of objects: what was written to the objects of all files, as the list of the operations
//! that were applied. In memory, and with chosen calls that fail. A store in memory keeps for each
//! object a head and its clones, as RADOS does (Ceph's developer docs, "snapshots").
#![tactic(auto)]

mod answers;
mod block;
mod faulty;
mod files;
mod image;
mod laws;
mod memory;
mod object;
mod traits;

pub use answers::{Applied, StoreFault};
pub use faulty::FaultyStore;
pub use files::{apply_all, read_file, zeros};
pub use laws::values_may_cross_threads;
pub use memory::MemStore;
pub use traits::ObjStore;
