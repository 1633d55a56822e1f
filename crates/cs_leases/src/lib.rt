//! The leases of a client. A lease on an entry of a directory says which inode the entry has until a
//! time: until then the client answers a look-up by itself. Contracts see the leases as a list.
#![tactic(auto)]

mod entry;
mod laws;
mod leases;
mod lookup;

pub use laws::{lookups_by_example, values_may_cross_threads};
pub use leases::Leases;
pub use lookup::Lookup;
