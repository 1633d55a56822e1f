//! Tests of the records of the server's log: each call, with ample memory.
#![tactic(auto)]

#[cfg(test)]
mod covering;
#[cfg(test)]
mod records;
#[cfg(test)]
mod requests;
#[cfg(test)]
mod steps;
