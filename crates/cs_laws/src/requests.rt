// Requests on the names in a directory, and what they are answered with.
ghost use Rattle.std.specs.Prelude.{◌≡◌, IfOk};

use cs_ids::{Ino, Memory, Name};
use std::alloc::Global;

/// What a request asks for.
#[derive(Drop)]
pub enum ReqOp {
    /// A new directory is made under a name.
    Mkdir {
        dir: Ino,
        name: Name,
    },
    /// A new file is made under a name.
    Create {
        dir: Ino,
        name: Name,
    },
    /// The entry of a name is taken out.
    Unlink {
        dir: Ino,
        name: Name,
    },
    /// The entry of a name has another name in the same directory from then on.
    Rename {
        dir: Ino,
        name: Name,
        new_name: Name,
    },
    /// The entry of a name is looked up.
    Lookup {
        dir: Ino,
        name: Name,
    },
}

impl ReqOp {
    /// A copy, equal to the operation.
    pub fn copy(&self, alloc: Global) -> Result<ReqOp, Memory>
        ensures { IfOk result (λ o. o ≡ self.now) }
    {
        Ok(match self {
            ReqOp::Mkdir { dir, name } => ReqOp::Mkdir {
                dir: *dir,
                name: copy_name(alloc, name)?,
            },
            ReqOp::Create { dir, name } => ReqOp::Create {
                dir: *dir,
                name: copy_name(alloc, name)?,
            },
            ReqOp::Unlink { dir, name } => ReqOp::Unlink {
                dir: *dir,
                name: copy_name(alloc, name)?,
            },
            ReqOp::Rename {
                dir,
                name,
                new_name,
            } => ReqOp::Rename {
                dir: *dir,
                name: copy_name(alloc, name)?,
                new_name: copy_name(alloc, new_name)?,
            },
            ReqOp::Lookup { dir, name } => ReqOp::Lookup {
                dir: *dir,
                name: copy_name(alloc, name)?,
            },
        })
    }
}

// The same name once more.
pub(crate) fn copy_name(alloc: Global, name: &Name) -> Result<Name, Memory>
    ensures { IfOk result (λ n. n ≡ name.now) }
{
    Name::from_slice(alloc, name.as_slice())
}

/// What a request is answered with.
#[derive(Clone, Copy, PartialEq, Eq, Debug)]
pub enum OpAnswer {
    /// The directory or file was made, under this inode.
    Made(Ino),
    /// The entry has this inode.
    Found(Ino),
    /// The entry was taken out.
    Gone,
    /// The entry has its new name.
    Moved,
    /// The name is taken.
    Exists,
    /// There is no such entry or directory.
    Missing,
    /// The directory has entries.
    NotEmpty,
    /// The inode is no directory.
    NotDir,
}
