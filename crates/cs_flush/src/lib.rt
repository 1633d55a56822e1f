//! One file's dirty metadata and its unacknowledged flushes. The client marks metadata dirty as it
//! changes it; a flush sends the metadata to the server and clears the marks, and is kept until the
//! server acknowledges it or a later one, since after a reconnect it is sent again. Contracts see the
//! dirty bits and the list of unacknowledged flushes, in the order of their numbers.
#![tactic(auto)]

mod flushes;
mod laws;
mod report;
mod sent;

pub use flushes::Flushes;
pub use laws::{
    an_ack_leaves_the_later_flushes, an_ack_of_the_last_leaves_none,
    only_start_raises_the_greatest_number, retiring_twice_is_retiring_at_the_greater,
    steps_keep_the_order, the_unacked_are_above_the_last_ack, two_flushes_by_example,
    values_may_cross_threads,
};
pub use report::{FlushReport, FlushReportList};
pub use sent::{FlushAck, Sent};
