//! Tests of the object store, of cached pages and of operations in flight to the store: each call that takes
//! memory, once with ample memory, and which calls of a faulty store fail.
#![tactic(auto)]

#[cfg(test)]
mod pages;
#[cfg(test)]
mod store;
#[cfg(test)]
mod writeback;
