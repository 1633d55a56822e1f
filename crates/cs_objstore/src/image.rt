// The bytes of an object in one of its states, in blocks that states share.
ghost use Rattle.std.specs.Prelude.{◌≡◌, ◌+◌, ◌*◌, ◌≤◌, [], length, slice_index, EachIndex, IfOk, OnOk};
ghost use Rattle.cs_geom.specs.declared.places.TheConstants.{OBJECT_SIZE};
ghost use Rattle.cs_objstore.specs.Blocks.{byte_in, AreReady, HasAllBytesOf, Writes};
ghost use Rattle.cs_objstore.specs.declared.block.TheConstants.{BLOCK_SIZE};

use crate::block::{BLOCK_SIZE, Block, lay_over};
use cs_ids::Memory;
use std::alloc::Global;
use std::marker::Model;

/// The bytes of an object: those that were never written are zero. Contracts see its blocks, from
/// the first one to the last that was written.
#[derive(Drop)]
pub struct Image {
    blocks: Vec<Block>,
}

impl Model for Image {
    ghost use Rattle.std.specs.Prelude.{List, ◌*◌, ◌≤◌, length};
    ghost use Rattle.cs_geom.specs.declared.places.TheConstants.{OBJECT_SIZE};
    ghost use Rattle.cs_objstore.specs.Blocks.{BlockState};
    ghost use Rattle.cs_objstore.specs.declared.block.TheConstants.{BLOCK_SIZE};

    ghost Value = { List BlockState };

    ghost view = { λ s. s.blocks.items };

    ghost invariant = { λ s. length s.blocks.items * BLOCK_SIZE ≤ OBJECT_SIZE };
}

impl Image {
    /// Nothing was written. It takes no memory.
    pub fn new(alloc: Global) -> Self
        ensures { result ≡ [] }
    {
        Image {
            blocks: Vec::new(alloc),
        }
    }

    /// The same bytes for another state: the two share all blocks. After `Memory` too the image has
    /// the bytes that it had.
    pub fn share(&mut self, alloc: Global) -> Result<Image, Memory>
        ensures kept { HasAllBytesOf self.old self.new }
        ensures same { IfOk result (HasAllBytesOf self.old) }
    {
        let count = self.blocks.len();
        let mut blocks = Vec::with_capacity(alloc, count)?;
        for index in 0..count {
            blocks.push(self.blocks[index].share(alloc)?)?;
        }
        Ok(Image { blocks })
    }

    // Sees to it that there are `count` blocks.
    fn extend(&mut self, alloc: Global, count: usize) -> Result<(), Memory>
        requires { count * BLOCK_SIZE ≤ OBJECT_SIZE }
        ensures kept { HasAllBytesOf self.old self.new }
        ensures count { OnOk result (count ≤ length self.new) }
    {
        for _ in self.blocks.len()..count {
            self.blocks.push(Block::new(alloc))?;
        }
        Ok(())
    }

    /// Takes all memory for a write of `len` bytes from `off` on, which end within the object. After
    /// `Memory` too the image has the bytes that it had.
    pub fn make_ready(&mut self, alloc: Global, off: u32, len: usize) -> Result<(), Memory>
        requires { off + len ≤ OBJECT_SIZE }
        ensures kept { HasAllBytesOf self.old self.new }
        ensures ready { OnOk result (AreReady off (off + len) self.new) }
    {
        let off = off as usize;
        let end = off + len;
        let reached = end.div_ceil(BLOCK_SIZE);
        self.extend(alloc, reached)?;
        for index in off / BLOCK_SIZE..reached {
            let last = (end - index * BLOCK_SIZE).min(BLOCK_SIZE);
            self.blocks[index].make_ready(alloc, last)?;
        }
        Ok(())
    }

    /// Writes these bytes from `off` on.
    pub fn write(&mut self, off: u32, bytes: &[u8])
        requires within { off + length bytes.now ≤ OBJECT_SIZE }
        requires ready { AreReady off (off + length bytes.now) self.old }
        ensures { Writes off bytes.now self.old self.new }
    {
        let off = off as usize;
        let reached = (off + bytes.len()).div_ceil(BLOCK_SIZE);
        for index in off / BLOCK_SIZE..reached {
            self.blocks[index].write(index * BLOCK_SIZE, off, bytes);
        }
    }

    /// Fills `out` with the bytes from `off` on.
    pub fn read(&self, off: u32, out: &mut [u8])
        ensures { EachIndex out.new (λ k. slice_index out.new k ≡ byte_in self.now (off + k)) }
    {
        out.fill(0);
        let off = off as usize;
        let reached = (off + out.len()).div_ceil(BLOCK_SIZE);
        for index in off / BLOCK_SIZE..reached.min(self.blocks.len()) {
            lay_over(self.blocks[index].as_slice(), index * BLOCK_SIZE, off, out);
        }
    }
}
