//! The requests of a client that are open: sent, and not yet told to be durable behind an answer.
//! Requests are numbered from 1 in the order in which they are sent.
//!
//! Contracts see how many were sent, and the open ones in the order of their numbers.
#![tactic(auto)]

mod laws;
mod named;
mod requests;

pub use laws::values_may_cross_threads;
pub use requests::{OpenReq, ReqList, Requests};
