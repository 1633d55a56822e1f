// The entries that an operation names.
ghost use Rattle.std.specs.Prelude.{◌≡◌};
ghost use Rattle.cs_laws.specs.Namespace.{is_named, names_entry};

use cs_ids::{Ino, Name};
use cs_laws::ReqOp;

// Whether an operation names the entry of a name in a directory. A rename names both of its names.
pub fn names_entry(op: &ReqOp, dir: Ino, name: &Name) -> bool
    ensures { result ≡ names_entry op.now dir name.now }
{
    match op {
        ReqOp::Mkdir { dir: d, name: n }
        | ReqOp::Create { dir: d, name: n }
        | ReqOp::Unlink { dir: d, name: n }
        | ReqOp::Lookup { dir: d, name: n } => is_named(dir, name, *d, n),
        ReqOp::Rename {
            dir: d,
            name: n,
            new_name,
        } => is_named(dir, name, *d, n) || is_named(dir, name, *d, new_name),
    }
}

// Whether the entry is that of another name in a directory.
fn is_named(dir: Ino, name: &Name, other_dir: Ino, other: &Name) -> bool
    ensures { result ≡ is_named dir name.now other_dir other.now }
{
    other_dir == dir && other.as_slice() == name.as_slice()
}
