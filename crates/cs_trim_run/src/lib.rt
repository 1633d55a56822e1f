//! Runs the script of a source against a store that gives up clones, and writes the journal of the run.
#![tactic(auto)]

mod input;
mod journal;
mod serve;

pub use serve::serve_trim;
