// The bytes of an object in one of its states, in blocks that images share.
ghost use Rattle.std.specs.Prelude.{◌≡◌, ◌+◌, ◌*◌, ◌≤◌, [], length, slice_index, EachIndex, IfOk};
ghost use Rattle.cs_geom.specs.declared.places.TheConstants.{OBJECT_SIZE};
ghost use Rattle.cs_trim.specs.Blocks.{block_at, byte_in, IsWrittenOver, Writes};
ghost use Rattle.cs_trim.specs.declared.block.TheConstants.{BLOCK_SIZE};

use crate::block::{BLOCK_SIZE, Block, lay_over};
use cs_ids::Memory;
use std::alloc::Global;
use std::marker::Model;

/// The bytes of an object: those that were never written are zero. It stays as it is. Contracts see
/// its blocks, from the first one to the last that was written.
#[derive(Drop)]
pub struct Image {
    blocks: Vec<Block>,
}

impl Model for Image {
    ghost use Rattle.std.specs.Prelude.{List, ℕ, ◌*◌, ◌≤◌, length};
    ghost use Rattle.cs_geom.specs.declared.places.TheConstants.{OBJECT_SIZE};
    ghost use Rattle.cs_trim.specs.declared.block.TheConstants.{BLOCK_SIZE};

    ghost Value = { List (List ℕ) };

    ghost view = { λ s. s.blocks.items };

    ghost invariant = { λ s. length s.blocks.items * BLOCK_SIZE ≤ OBJECT_SIZE };
}

impl Image {
    /// Nothing was written. It takes no memory.
    pub fn new(alloc: Global) -> Self
        ensures { result ≡ [] }
    {
        Image {
            blocks: Vec::new(alloc),
        }
    }

    // The bytes of a block.
    fn block(&self, index: usize) -> &[u8]
        ensures bytes { result.now ≡ block_at self.now index }
        ensures few { length result.now ≤ BLOCK_SIZE }
    {
        match self.blocks.get(index) {
            Some(block) => block.as_slice(),
            None => &[],
        }
    }

    // The block, shared.
    fn share(&self, alloc: Global, index: usize) -> Result<Block, Memory>
        ensures { IfOk result (λ b. b ≡ block_at self.now index) }
    {
        match self.blocks.get(index) {
            Some(block) => block.share(),
            None => Block::empty(alloc),
        }
    }

    // The block once bytes are written from `off` on. It is shared where they don't touch it.
    fn block_after(
        &self,
        alloc: Global,
        index: usize,
        off: usize,
        bytes: &[u8],
    ) -> Result<Block, Memory>
        requires index { index * BLOCK_SIZE ≤ OBJECT_SIZE }
        requires within { off + length bytes.now ≤ OBJECT_SIZE }
        ensures { IfOk result (IsWrittenOver (index * BLOCK_SIZE) off bytes.now (block_at self.now index)) }
    {
        let start = index * BLOCK_SIZE;
        if off + bytes.len() <= start || start + BLOCK_SIZE <= off {
            self.share(alloc, index)
        } else {
            Block::written_over(alloc, self.block(index), start, off, bytes)
        }
    }

    /// The image once bytes are written from `off` on. The two share the other blocks.
    pub fn written(&self, alloc: Global, off: u32, bytes: &[u8]) -> Result<Image, Memory>
        requires { off + length bytes.now ≤ OBJECT_SIZE }
        ensures { IfOk result (Writes off bytes.now self.now) }
    {
        let off = off as usize;
        let reached = (off + bytes.len()).div_ceil(BLOCK_SIZE);
        let count = self.blocks.len().max(reached);
        let mut blocks = Vec::with_capacity(alloc, count)?;
        for index in 0..count {
            blocks.push(self.block_after(alloc, index, off, bytes)?)?;
        }
        Ok(Image { blocks })
    }

    /// Fills `out` with the bytes from `off` on.
    pub fn read(&self, off: u32, out: &mut [u8])
        ensures { EachIndex out.new (λ k. slice_index out.new k ≡ byte_in self.now (off + k)) }
    {
        out.fill(0);
        let off = off as usize;
        let reached = (off + out.len()).div_ceil(BLOCK_SIZE);
        for index in off / BLOCK_SIZE..reached.min(self.blocks.len()) {
            lay_over(self.block(index), index * BLOCK_SIZE, off, out);
        }
    }
}
