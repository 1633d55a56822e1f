//! The tree of directories. Each directory has a way up to the root, and the directories stand parents
//! first.
#![tactic(auto)]

mod directories;
mod laws;
mod path;

pub use directories::{Directories, Directory};
pub use laws::values_may_cross_threads;
pub use path::DirPath;
