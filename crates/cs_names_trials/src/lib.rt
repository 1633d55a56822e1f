//! Tests of names, requests and leases: each call that takes memory, once with ample memory.
#![tactic(auto)]

#[cfg(test)]
mod leases;
#[cfg(test)]
mod names;
#[cfg(test)]
mod requests;
