// What the server has of a file at a state.
ghost use Rattle.std.specs.Prelude.{◌≡◌, true};
ghost use Rattle.cs_laws.specs.Covering.{covers_along};
ghost use Rattle.cs_tree.specs.Directories.{has_directory, path_of};
ghost use Rattle.cs_records.specs.Records.{all};
ghost use Rattle.cs_mds.specs.Answers.{shown_at};

use cs_ids::{FileMeta, Ino, Snap};
use cs_laws::At;
use cs_records::Records;
use cs_tree::Directories;

/// What the server has of a file at a state.
#[derive(Clone, Copy)]
pub enum Shown {
    /// The server doesn't know the file.
    Unknown,
    /// There is no such snapshot, or none that covers the file.
    Absent,
    /// The snapshot is removed.
    Gone,
    /// The file's metadata then.
    Meta(FileMeta),
}

// What is shown of a file in a directory.
pub fn shown_at(records: &Records, tree: &Directories, file: Ino, home: Ino, at: At) -> Shown
    requires { has_directory home tree.now ≡ true }
    ensures { result ≡ shown_at file (all records.now) (path_of tree.now home) at }
{
    let At::Snap(snap) = at else {
        return Shown::Meta(records.meta(file, at));
    };
    let Some(dir) = records.snap_dir(snap) else {
        return Shown::Absent;
    };
    if records.is_removed(snap) {
        Shown::Gone
    } else if is_covered(records, tree, snap, dir, home) {
        Shown::Meta(records.meta(file, at))
    } else {
        Shown::Absent
    }
}

// Whether a snapshot of one directory covers the files in another.
fn is_covered(records: &Records, tree: &Directories, snap: Snap, dir: Ino, home: Ino) -> bool
    requires { has_directory home tree.now ≡ true }
    ensures { result ≡ covers_along snap dir (all records.now) (path_of tree.now home) }
{
    match tree.path(home) {
        Some(path) => records.covers(snap, dir, path),
        None => unreachable!(),
    }
}
