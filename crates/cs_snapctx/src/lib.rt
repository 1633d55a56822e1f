//! Snapshot contexts: which snapshots cover a file, how a realm's context is made of its own
//! snapshots and its parent's, and what the server tells of a realm.
#![tactic(auto)]

mod context;
mod laws;
mod list;
mod realm;

pub use context::SnapContext;
pub use laws::{
    descending_lists_are_equal, merged_by_example, merged_is_a_realm_context,
    realm_contexts_are_equal, values_may_cross_threads,
};
pub use list::SnapList;
pub use realm::RealmRecord;
