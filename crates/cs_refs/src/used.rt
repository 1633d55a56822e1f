// What the live references to a file use.
ghost use Rattle.std.specs.Prelude.{◌≡◌, ◌≤◌, length};
ghost use Rattle.cs_parts.specs.References.{used_in};
ghost use Rattle.cs_refs.specs.Table.{writers_of};

use cs_bits::Caps;
use cs_ids::Ino;
use cs_parts::Live;

// The bits of the references to a file.
pub fn used_by(live: &[Live], file: Ino) -> Caps
    ensures { result ≡ used_in file live.now }
{
    let mut used = Caps::none();
    let mut i = live.len();
    while i > 0 {
        i -= 1;
        let r = &live[i];
        if r.file == file {
            used = r.bits.union(used);
        }
    }
    used
}

// How many references to a file have the right to write.
pub fn writers_among(live: &[Live], file: Ino) -> usize
    ensures count { result ≡ writers_of file live.now }
    ensures bound { result ≤ length live.now }
{
    live.iter()
        .filter(|r| r.file == file && r.bits.has_write())
        .count()
}
