// The bytes of a page.
ghost use Rattle.std.specs.Prelude.{◌≡◌, ◌+◌, ◌≤◌, length, IfOk};
ghost use Rattle.cs_pages.specs.Page.{overwritten};

use cs_ids::Memory;
use std::alloc::Global;
use std::marker::Model;

// How many bytes a page has.
pub(crate) const PAGE_SIZE: usize = 4096;

/// The 4,096 bytes of a page. Contracts see them as a list.
#[derive(Drop)]
pub struct Block {
    bytes: Box<[u8; 4096]>,
}

impl Model for Block {
    ghost use Rattle.std.specs.Prelude.{◌≡◌, List, ℕ, length};

    ghost Value = { List ℕ };

    ghost view = { λ b. b.bytes.value };

    ghost invariant = { λ b. length b.bytes.value ≡ 4096 };
}

impl Block {
    /// These bytes.
    pub fn new(alloc: Global, bytes: &[u8; 4096]) -> Result<Self, Memory>
        ensures { IfOk result (λ b. b ≡ bytes.now) }
    {
        Ok(Block {
            bytes: Box::new(alloc, *bytes)?,
        })
    }

    /// These bytes, as many as a page has.
    pub fn from_slice(alloc: Global, bytes: &[u8]) -> Result<Self, Memory>
        requires { length bytes.now ≡ 4096 }
        ensures { IfOk result (λ b. b ≡ bytes.now) }
    {
        let mut block = Block {
            bytes: Box::new(alloc, [0; 4096])?,
        };
        block.bytes.copy_from_slice(bytes);
        Ok(block)
    }

    /// The bytes.
    pub fn as_slice(&self) -> &[u8]
        ensures value { result.now ≡ self.now }
        ensures size { length result.now ≡ 4096 }
    {
        self.bytes.as_slice()
    }

    /// Writes `bytes` over those from the place `at` on, counted from 0.
    pub fn write(&mut self, at: usize, bytes: &[u8])
        requires { at + length bytes.now ≤ 4096 }
        ensures { self.new ≡ overwritten at bytes.now self.old }
    {
        self.bytes[at..at + bytes.len()].copy_from_slice(bytes);
    }
}
