//! The words of the command line: what they ask for, as `clap` reads them.
#![tactic(auto)]

mod command;
mod fault;
mod run;
mod trim;

pub use command::{Command, read_command};
pub use fault::WordsFault;
