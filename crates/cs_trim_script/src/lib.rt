//! Scripts for a store that gives up clones: which bytes are one and which events they spell, the answer
//! to each event, and the text of the journal.
#![tactic(auto)]

mod answers;
mod events;
mod fields;
mod forms;
mod line_fault;
mod lines;
mod printing;
mod rows;
mod run;
mod script;

pub use answers::Answer;
pub use cs_script::ParseFault;
pub use events::Event;
pub use lines::parse;
pub use printing::print_entry;
pub use rows::{bad_lines, refused_snapshots, trimmed_between};
pub use run::TrimRun;
pub use script::Script;
