//! What a cached page is to the client, and how far an operation of write-back has come: each a plain
//! value with its steps. The journal's definitions and the tables of pages and of operations speak of
//! the same values, so that neither copies the other.
#![tactic(auto)]

mod delivery;
mod laws;
mod page;

pub use delivery::{Delivery, Reply, Resend};
pub use laws::{
    an_acknowledgement_leaves_other_operations, copies_and_replies_are_counted,
    listed_pages_are_those_of_their_numbers, one_page_by_example,
    pick_names_the_lowest_page_of_the_oldest_context, the_oldest_context_is_the_least,
    writes_wait_for_their_causes,
};
pub use page::{PageState, PageWrite, Pick};
