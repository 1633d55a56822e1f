//! Tests of scripts, and of events, answers and operations as they print and are copied: each call that takes
//! memory, once with ample memory.
#![tactic(auto)]

#[cfg(test)]
mod laws;
#[cfg(test)]
mod script;
