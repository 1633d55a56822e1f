//! The cached pages of one file: their bytes, and what of them is owed to the object store, under which
//! snapshot context and in which operation. A page is owed under one context at most. A write under a
//! newer one waits until the older bytes are acknowledged, and the oldest context is written back first.
#![tactic(auto)]

mod block;
mod laws;
mod page;
mod pages;

pub use block::Block;
pub use cs_states::{PageState, PageWrite, Pick};
pub use laws::{
    contexts_are_of_the_last_write, pages_may_cross_threads, reads_give_the_last_bytes_put,
    states_follow_the_steps, two_contexts_by_example,
};
pub use page::{Filled, Owed, Page};
pub use pages::Pages;
