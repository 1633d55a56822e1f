//! Tests of the gate: that a pass comes in and the gate drains, and threads that go in and out meanwhile.
#![tactic(auto)]

#[cfg(test)]
mod gate;
