// The entries of directories, as keys.
ghost use Rattle.std.specs.Prelude.{◌≡◌};
ghost use Rattle.cs_leases.specs.Entries.{entry_of};

use arrayvec::ArrayVec;
use cs_ids::{Ino, Name};

// An entry of a directory. It keeps the name's bytes itself, so that one to look for takes no memory.
#[derive(PartialEq, Eq, Hash, Drop)]
pub struct Entry {
    dir: Ino,
    name: ArrayVec<u8, 32>,
}

impl Entry {
    // The entry of a directory that has the name.
    pub fn new(dir: Ino, name: &Name) -> Self
        ensures { result ≡ entry_of dir name.now }
    {
        let Ok(name) = ArrayVec::try_from(name.as_slice()) else {
            unreachable!()
        };
        Entry { dir, name }
    }
}
