//! How a file lies in pages and objects.
//!
//! A file is cut into pages of 4,096 bytes, in which it is cached, and into objects of 65,536 bytes,
//! in which it is stored. A range of a file's bytes may touch several of them: [`split`] cuts it
//! into pieces that lie within one page each, and [`split_objects`] into pieces that lie within one
//! object each. Neither takes memory.
#![tactic(auto)]

mod cuts;
mod laws;
mod places;

pub use cuts::{PieceIter, split, split_objects};
pub use laws::{cuts_by_example, parts_join_to_the_whole, ranges_are_cut_in_one_way};
pub use places::{MAX_FILE_SIZE, OBJECT_SIZE, PAGE_SIZE, Piece};
