//! A store of objects that gives up the clones which serve removed snapshots alone. It keeps for each
//! object a head and its clones, as RADOS does; images share the blocks that they have in common.
#![tactic(auto)]

mod answers;
mod block;
mod image;
mod numbers;
mod object;
mod store;

pub use answers::{Removed, TrimRead};
pub use store::{OBJECT_COUNT, TrimStore};
