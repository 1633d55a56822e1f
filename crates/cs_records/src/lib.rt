//! The records of the server's log: which snapshots they tell of, and what the client is told of them
//! once they are durable. Contracts see the records, the oldest first.
#![tactic(auto)]

mod flushes;
mod index;
mod laws;
mod names;
mod own_snaps;
mod own_table;
mod recorded;
mod records;
mod requests;
mod sinces;

pub use laws::{
    a_front_of_a_log_is_a_log, a_record_of_a_log_is_the_next_one, a_removal_tells_its_realm_alone,
    a_snapshot_tells_its_realm_and_those_now_below, told_by_example, values_may_cross_threads,
};
pub use records::Records;
