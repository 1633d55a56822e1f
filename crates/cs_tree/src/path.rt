// The way up from a directory.
ghost use Rattle.std.specs.Prelude.{◌≡◌, [], ◌∷◌, length, IfOk};

use cs_ids::{Ino, Memory};
use std::alloc::Global;
use std::marker::Model;

/// A directory and those above it, the nearest first and the root last.
#[derive(Debug, Drop)]
pub struct DirPath {
    items: Vec<Ino>,
}

impl Model for DirPath {
    ghost use Rattle.std.specs.Prelude.{List, ℕ};

    ghost Value = { List ℕ };

    ghost view = { λ p. p.items.items };
}

impl DirPath {
    /// The path of a directory that has none above it.
    pub fn top(alloc: Global, directory: Ino) -> Result<Self, Memory>
        ensures { IfOk result (λ p. p ≡ directory ∷ []) }
    {
        let mut items = Vec::new(alloc);
        items.push(directory)?;
        Ok(DirPath { items })
    }

    /// The path of a directory in the one of this path.
    pub fn below(&self, directory: Ino) -> Result<Self, Memory>
        ensures { IfOk result (λ p. p ≡ directory ∷ self.now) }
    {
        let mut items = Vec::new(*self.items.allocator());
        items.push(directory)?;
        items.extend_from_slice(self.items.as_slice())?;
        Ok(DirPath { items })
    }

    /// The directories, the nearest first.
    pub fn as_slice(&self) -> &[Ino]
        ensures { result.now ≡ self.now }
    {
        self.items.as_slice()
    }

    /// How many directories there are.
    pub fn len(&self) -> usize
        ensures { result ≡ length self.now }
    {
        self.items.len()
    }
}
