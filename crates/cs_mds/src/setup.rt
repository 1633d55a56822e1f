// The lines that stand before all others.
ghost use Rattle.std.specs.Prelude.{◌≡◌, ℕ, ◌≤◌, [], true, IfOk, OnOk, OnErr};
ghost use Rattle.cs_laws.specs.declared.events.Event.TheVariants as events;
ghost use Rattle.cs_names.specs.Setup.{IsSetUp};
ghost use Rattle.cs_tree.specs.Directories.{has_directory};
ghost use Rattle.cs_mds.specs.Answers.{made_answer};
ghost use Rattle.cs_mds.specs.Served.{HomesAfter, TreeAfter, names_then};
ghost use Rattle.cs_mds.specs.Views.{AreIn, AreWhole, is_in_use};

use cs_ids::{Ino, Memory};
use cs_laws::Answer;
use cs_names::Names;
use cs_tree::Directories;
use std::collections::BTreeMap;

// Makes a directory in another. After `Memory` the names are as before, and the directory may be known.
pub fn make_dir(
    tree: &mut Directories,
    homes: &BTreeMap<Ino, Ino>,
    names: &mut Names,
    dir: Ino,
    parent: Ino,
) -> Result<Answer, Memory>
    requires least { 2 ≤ dir }
    requires greatest { dir ≤ 9999 }
    requires first { IsSetUp names.old }
    ensures answer { IfOk result (λ a. a ≡ made_answer tree.old homes.now dir parent) }
    ensures tree { IfOk result (λ a. TreeAfter (events.Dir dir parent) a [] tree.old tree.new) }
    ensures names { IfOk result (λ a. names.new ≡ names_then (events.Dir dir parent) a [] names.old) }
    ensures first { IsSetUp names.new }
    ensures whole { AreWhole tree.old homes.now names.old → OnOk result (AreWhole tree.new homes.now names.new) }
    ensures err { OnErr result (names.new ≡ names.old) }
    ensures grows { (d : ℕ) → has_directory d tree.old ≡ true → has_directory d tree.new ≡ true }
{
    if is_in_use(tree, homes, dir) {
        return Ok(Answer::Exists);
    }
    if !tree.contains(parent) {
        return Ok(Answer::NoDir);
    }
    tree.add(dir, parent)?;
    names.setup(dir, parent, true)?;
    Ok(Answer::Made)
}

// Makes a file in a directory. After `Memory` the names are as before, and the file may be known.
pub fn make_file(
    tree: &Directories,
    homes: &mut BTreeMap<Ino, Ino>,
    names: &mut Names,
    file: Ino,
    parent: Ino,
) -> Result<Answer, Memory>
    requires least { 2 ≤ file }
    requires greatest { file ≤ 9999 }
    requires first { IsSetUp names.old }
    ensures answer { IfOk result (λ a. a ≡ made_answer tree.now homes.old file parent) }
    ensures homes { IfOk result (λ a. HomesAfter (events.File file parent) a [] homes.old homes.new) }
    ensures names { IfOk result (λ a. names.new ≡ names_then (events.File file parent) a [] names.old) }
    ensures first { IsSetUp names.new }
    ensures whole { AreWhole tree.now homes.old names.old → OnOk result (AreWhole tree.now homes.new names.new) }
    ensures err { OnErr result (names.new ≡ names.old) }
    ensures inside { AreIn tree.now homes.old → AreIn tree.now homes.new }
{
    if is_in_use(tree, homes, file) {
        return Ok(Answer::Exists);
    }
    if !tree.contains(parent) {
        return Ok(Answer::NoDir);
    }
    homes.insert(file, parent)?;
    names.setup(file, parent, false)?;
    Ok(Answer::Made)
}

// Whether a directory or a file has the inode.
fn is_in_use(tree: &Directories, homes: &BTreeMap<Ino, Ino>, inode: Ino) -> bool
    ensures { result ≡ is_in_use inode tree.now homes.now }
{
    tree.contains(inode) || homes.contains_key(&inode)
}
