// What lines make before the run begins.
ghost use Rattle.std.specs.Prelude.{◌≡◌, IfOk};
ghost use Rattle.cs_names.specs.Setup.{setup_name};

use cs_ids::{Ino, Memory};
use std::alloc::Global;

/// What a line that makes a directory or a file did.
#[derive(Clone, Copy, PartialEq, Eq, Debug)]
pub enum SetupStep {
    /// The directory or file was made.
    Made,
    /// The inode is a standing directory's or a file's.
    Exists,
    /// What it was to be made in is no standing directory.
    NoDir,
}

// The name under which such a line makes an inode: the letter d or f, and the number.
pub fn setup_name(alloc: Global, ino: Ino, is_dir: bool) -> Result<Vec<u8>, Memory>
    ensures { IfOk result (λ n. n.items ≡ setup_name is_dir ino) }
{
    let number = ino.get();
    let name = if is_dir {
        format!(in alloc; "d{number}")?
    } else {
        format!(in alloc; "f{number}")?
    };
    Ok(name.into_bytes())
}
