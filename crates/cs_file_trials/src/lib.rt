//! Tests of what a client keeps of files: their bytes and metadata, cap snaps, flushes, references and snapshot
//! contexts. Each call that takes memory, once with ample memory.
#![tactic(auto)]

#[cfg(test)]
mod capsnap;
#[cfg(test)]
mod flush;
#[cfg(test)]
mod inode;
#[cfg(test)]
mod realms;
#[cfg(test)]
mod refs;
