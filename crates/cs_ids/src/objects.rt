// Names of a file's parts and of its metadata.
use crate::Ino;

/// An object of a file: the 65,536 bytes of the file from `65536 * index` on.
#[derive(Clone, Copy, PartialEq, Eq, Debug)]
pub struct Obj {
    pub ino: Ino,
    /// Counted from 0.
    pub index: u32,
}

/// A file's metadata: its size in bytes, the time of its last write by the script's clock, and its
/// mode, twelve bits of permissions.
#[derive(Clone, Copy, PartialEq, Eq, Debug)]
pub struct FileMeta {
    pub size: u64,
    pub mtime: u64,
    pub mode: u16,
}
