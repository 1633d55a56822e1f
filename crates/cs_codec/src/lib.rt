//! Fields in bytes: numbers, flags, names and counted lists, written one behind the other and read back
//! from the left. Numbers have their lowest byte first, as in Ceph's own encoding (`encoding.h`); which
//! widths and counts there are is this project's choice.
#![tactic(auto)]

mod field;
mod laws;
mod reader;
mod writer;

pub use field::Field;
pub use laws::{
    bytes_by_example, each_has_one_spelling, fields_are_put_together, fields_are_read_back,
    kinds_are_told_apart, own_bytes, values_may_cross_threads, whole_bytes_are_read,
};
pub use reader::Reader;
pub use writer::{
    put_flag, put_ino, put_list, put_name, put_number, put_optional_ino, put_seq, put_snap, put_tid,
};
