//! One file's queue of cap snaps. Where a snapshot or a removal changes the snapshot context of a file
//! that has a writer or unflushed metadata, the client queues a cap snap: the file's old context, and
//! its metadata under that. It is sent, in order, once it isn't written on and no page of its time is
//! owed, and leaves when it is acknowledged. Contracts see the queue as a list, in order of queuing.
#![tactic(auto)]

mod laws;
mod queue;
mod snap;

pub use laws::{
    acked_takes_out_one_alone, finish_changes_the_last_alone,
    only_sending_raises_the_greatest_number, only_the_last_is_writing,
    sent_changes_the_first_unsent_alone, steps_keep_the_order, two_snapshots_by_example,
    values_may_cross_threads, writing_lasts_until_finish,
};
pub use queue::CapSnaps;
pub use snap::{CapSnap, Ready};
