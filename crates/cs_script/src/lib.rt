//! Scripts: which bytes are one and which events they spell, and how an event and an entry of the
//! journal print.
#![tactic(auto)]

mod fields;
mod forms;
pub mod laws;
mod line_fault;
mod lines;
mod printing;
mod requests;
mod script;

pub use cs_laws::{Kind, ScriptFault};
pub use lines::{ParseFault, parse};
pub use printing::{print_entry, print_event};
pub use script::Script;
