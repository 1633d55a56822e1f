//! The operations that write-back has sent to the object store: what each one writes, how many copies
//! and replies of it are on the way, and whether it is acknowledged. Copies and replies may be lost,
//! repeated and reordered.
#![tactic(auto)]

mod laws;
mod operations;

pub use cs_states::{Delivery, Reply, Resend};
pub use laws::{a_lost_copy_by_example, a_step_is_of_one_operation, operations_may_cross_threads};
pub use operations::{OpsInFlight, SentOp};
