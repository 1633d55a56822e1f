// The directories, by number.
ghost use Rattle.std.specs.Prelude.{◌≡◌, ℕ, ◌==◌, ◌||◌, ◌≤◌, insert, [], ◌∷◌, length, is_some, slice_get, if◌then◌else◌, true, false, IfOk, IfSome, OnOk, OnErr};
ghost use Rattle.std.specs.Option.{option_copied};
ghost use Rattle.cs_laws.specs.Tree.{with_directory};
ghost use Rattle.cs_tree.specs.Directories.{AreDistinct, depth_of, directory_of, is_before, with_added, has_directory, inos, path_of};

use crate::DirPath;
use cs_ids::{Ino, Memory};
use std::alloc::Global;
use std::marker::Model;

/// A directory and its way up.
#[derive(Debug, Drop)]
pub struct Directory {
    /// The directory.
    pub ino: Ino,
    /// The directory itself and those above it, the nearest first and the root last.
    pub path: DirPath,
}

/// All directories, parents first: by the length of their path, and then by number. The root, which is
/// directory 1, is always there. Few are expected, so that each look-up goes over all.
#[derive(Debug, Drop)]
pub struct Directories {
    alloc: Global,
    items: Vec<Directory>,
}

impl Model for Directories {
    ghost use Rattle.std.specs.Prelude.{List};
    ghost use Rattle.cs_tree.specs.declared.directories.Directory.{Directory};
    ghost use Rattle.cs_tree.specs.Directories.{AreDistinct};

    ghost Value = { List Directory };

    ghost view = { λ d. d.items.items };

    ghost invariant = { λ d. AreDistinct d.items.items };
}

impl Directories {
    /// The root alone.
    pub fn new(alloc: Global) -> Result<Self, Memory>
        ensures { IfOk result (λ ds. ds ≡ record { ino = 1; path = 1 ∷ [] } ∷ []) }
    {
        let Some(root) = Ino::new(1) else {
            unreachable!()
        };
        let mut items = Vec::new(alloc);
        items.push(Directory {
            ino: root,
            path: DirPath::top(alloc, root)?,
        })?;
        Ok(Directories { alloc, items })
    }

    /// Whether there is the directory.
    pub fn contains(&self, directory: Ino) -> bool
        ensures { result ≡ has_directory directory self.now }
    {
        self.find(directory).is_some()
    }

    /// The path of a directory, or None exactly where there is no such directory.
    pub fn path(&self, directory: Ino) -> Option<&[Ino]>
        ensures known { is_some result ≡ has_directory directory self.now }
        ensures path { IfSome result (λ path. path.now ≡ path_of self.now directory) }
    {
        let found = self.find(directory)?;
        Some(found.path.as_slice())
    }

    /// Adds a directory below one that is there, at its place. After `Memory` the directories are as
    /// before.
    pub fn add(&mut self, directory: Ino, parent: Ino) -> Result<(), Memory>
        requires parent { has_directory parent self.old ≡ true }
        requires new { has_directory directory self.old ≡ false }
        ensures members { OnOk result ((d : ℕ) → has_directory d self.new ≡ ((directory == d) || has_directory d self.old)) }
        ensures order { OnOk result (inos self.new ≡ with_directory (depth_of self.new) directory (inos self.old)) }
        ensures paths { OnOk result ((d : ℕ) → path_of self.new d ≡ (if directory == d then directory ∷ path_of self.old parent else path_of self.old d)) }
        ensures err { OnErr result (self.new ≡ self.old) }
    {
        let Some(above) = self.find(parent) else {
            unreachable!()
        };
        let added = Directory {
            ino: directory,
            path: above.path.below(directory)?,
        };
        let place = place_of(self.items.as_slice(), &added);
        self.items.insert(place, added)?;
        Ok(())
    }

    /// How many directories there are.
    pub fn len(&self) -> usize
        ensures { result ≡ length self.now }
    {
        self.items.len()
    }

    /// The directory at place `i`, counted from 0, or None exactly past the end.
    pub fn get(&self, i: usize) -> Option<&Directory>
        ensures { option_copied result ≡ slice_get self.now i }
    {
        self.items.get(i)
    }

    // A directory with its path, or None exactly where it is unknown.
    fn find(&self, directory: Ino) -> Option<&Directory>
        ensures { option_copied result ≡ directory_of directory self.now }
    {
        self.items.iter().find(|d| d.ino == directory)
    }

    /// The directories in their order.
    pub fn as_slice(&self) -> &[Directory]
        ensures items { result.now ≡ self.now }
        ensures distinct { AreDistinct self.now }
    {
        self.items.as_slice()
    }
}

// The place at which a directory is put among others.
fn place_of(directories: &[Directory], added: &Directory) -> usize
    ensures within { result ≤ length directories.now }
    ensures put { insert directories.now result added.now ≡ with_added added.now directories.now }
{
    for (place, directory) in directories.iter().enumerate() {
        if is_before(added, directory) {
            return place;
        }
    }
    directories.len()
}

// Whether a directory is nearer to the root than another, or as near and has the lesser number.
fn is_before(a: &Directory, b: &Directory) -> bool
    ensures { result ≡ is_before a.now b.now }
{
    a.path.len() < b.path.len() || a.path.len() == b.path.len() && a.ino < b.ino
}
