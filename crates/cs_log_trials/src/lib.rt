//! Tests of the log and of fields in bytes: each call that takes memory, once with ample memory, and
//! what no contract says.
#![tactic(auto)]

#[cfg(test)]
mod codec;
#[cfg(test)]
mod log;
