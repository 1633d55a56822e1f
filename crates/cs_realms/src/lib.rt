//! The snapshot contexts of a tree of realms, kept up to date record by record. A realm is a directory
//! whose snapshots cover all below it. The server tells of each realm by a record, and the context of a
//! realm is made of its record and of its parent's context. Contracts see the tree as the list of its
//! last records.
#![tactic(auto)]

mod changed;
mod context;
mod fault;
mod laws;
mod realms;
mod record;
mod renewal;

pub use changed::{Change, Changed};
pub use fault::RealmFault;
pub use laws::{
    contexts_by_example, contexts_follow_the_rule, records_keep_it_acyclic, the_last_record_counts,
    values_may_cross_threads,
};
pub use realms::Realms;
