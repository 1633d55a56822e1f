//! The server's log. Its records as bytes, and logs of such bytes, which are appended one record behind the
//! other, and of which a front is durable: in memory, and with chosen calls that fail.
#![tactic(auto)]

mod answers;
mod decode;
mod encode;
mod faulty;
mod laws;
mod memory;
mod traits;

pub use answers::LogFault;
pub use decode::decode_record;
pub use encode::encode_record;
pub use faulty::FaultyLog;
pub use laws::{
    each_record_is_read, one_spelling, records_by_example, spelled_records_fit,
    values_may_cross_threads,
};
pub use memory::MemLog;
pub use traits::MdsLog;
