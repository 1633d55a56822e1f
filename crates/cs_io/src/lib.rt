//! Sources and sinks of bytes that count their faults: in memory, over std's readers and writers,
//! and faulty ones for tests. Whole inputs are read and whole outputs written.
#![tactic(auto)]

mod faulty;
mod memory;
mod standard;
mod traits;
mod whole;

pub use cs_ids::Failed;
pub use faulty::{FaultySink, FaultySource};
pub use memory::{MemSink, MemSource};
pub use standard::{StdSink, StdSource};
pub use traits::{Sink, Source};
pub use whole::{ReadAll, ReadFault, read_all, write_all};
