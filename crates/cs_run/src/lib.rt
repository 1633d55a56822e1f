//! Runs the script of a source against a model of CephFS's client, metadata server and object store, and
//! writes the journal of the run.
#![tactic(auto)]

mod input;
mod journal;
mod run_fault;
mod serve;

pub use serve::serve_run;
