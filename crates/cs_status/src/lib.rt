//! What a command writes and ends with: its status, the line of an input that it refuses, that of faulty
//! words, and the end of a journal.
#![tactic(auto)]

mod end_line;
mod finished;
mod read_fault;
mod refusal;
mod usage;
mod write_fault;

pub use end_line::write_end;
pub use finished::Finished;
pub use read_fault::read_status;
pub use refusal::{MOST_BYTES, MOST_EVENTS, Refusal, refuse};
pub use usage::tell_usage;
pub use write_fault::{WriteFault, write_status};
