//! Numbers in their ranges, names, lists, and the words in which every device tells its
//! faults. All other crates stand on this one.
#![tactic(auto)]

mod bytes;
mod devices;
mod items;
mod laws;
mod memory;
mod names;
mod numbers;
mod objects;

pub use bytes::Bytes;
pub use devices::Failed;
pub use items::Items;
pub use laws::{names_by_example, values_may_cross_threads};
pub use memory::Memory;
pub use names::{Name, is_name};
pub use numbers::{Caller, Ino, RefNo, Seq, Snap, Tid};
pub use objects::{FileMeta, Obj};
