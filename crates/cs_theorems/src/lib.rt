//! The laws of every run: facts about the definitions alone, for every journal that a run can have. Each is
//! the contract of a public function without parameters and with an empty body. No code that does the
//! work is in it; that the code keeps to the definitions is proved where it stands.
#![tactic(auto)]

mod capabilities;
mod contents;
mod flushes;
mod laws;
mod metadata;
mod references;
mod refusals;
mod requests;
mod snapshots;
mod spellings;

pub use capabilities::{acks_are_free, held_covers_implemented};
pub use contents::{objects_hold_the_writes, states_hold_the_writes};
pub use flushes::{acked_flushes_stay, flushes_are_numbered, flushes_stand_once};
pub use laws::runs_are_lawful;
pub use metadata::{metadata_is_of_the_writes, states_read_back};
pub use references::{live_references_were_issued, numbers_are_drawn_once, uses_are_issued};
pub use refusals::refused_events_change_the_journal_alone;
pub use requests::{leases_stand, replies_stand, requests_stand_once};
pub use snapshots::{
    contexts_never_fall, finished_snaps_are_not_written, finished_snaps_keep_their_writes,
    follows_rise, one_context_for_each_seq, only_the_last_is_writing, tags_are_of_the_begin,
    tags_never_fall, told_parents_are_known, writers_share_a_context, writers_share_a_tag,
    writing_while_an_older_writer_lives,
};
pub use spellings::{messages_fit, records_fit};
