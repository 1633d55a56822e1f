// A part of an object's bytes. Several of its states share it as long as it isn't written to.
ghost use Rattle.std.specs.Prelude.{◌≡◌, ℕ, ◌+◌, ◌-◌, ◌≤◌, length, slice_index, min, EachIndex, IfOk, IfErr, OnOk};
ghost use Rattle.cs_laws.specs.Image.{byte_over};
ghost use Rattle.cs_objstore.specs.declared.block.TheConstants.{BLOCK_SIZE};
ghost use Rattle.cs_objstore.specs.Blocks.{no_block, shared_bytes, state_of, HasBytesOf, IsReady, IsWrittenOver};

use cs_ids::Memory;
use std::alloc::Global;
use std::marker::Model;
use std::mem;
use std::sync::Arc;

/// The bytes of a block.
pub const BLOCK_SIZE: usize = 4096;

// Where a block's bytes are.
#[derive(Drop)]
enum Held {
    // One state alone has them, and they are written to where they lie.
    Own(Vec<u8>),
    // States share them, or did so. They stay as they are.
    Shared(Arc<Vec<u8>>),
}

impl Held {
    // The bytes as states share them. They come back where there is no memory.
    fn into_shared(self, alloc: Global) -> Result<Arc<Vec<u8>>, Vec<u8>>
        ensures ok { IfOk result (λ shared. shared_bytes shared ≡ (state_of self).bytes) }
        ensures err { IfErr result (λ own. own.items ≡ (state_of self).bytes) }
    {
        match self {
            Held::Own(own) => match Arc::new(alloc, own) {
                Ok(shared) => Ok(shared),
                Err(refused) => Err(refused.value),
            },
            Held::Shared(shared) => Ok(shared),
        }
    }
}

/// Up to 4,096 bytes of an object. What is behind them in the block is zero.
#[derive(Drop)]
pub struct Block {
    held: Held,
}

impl Model for Block {
    ghost use Rattle.std.specs.Prelude.{◌≤◌, length};
    ghost use Rattle.cs_objstore.specs.declared.block.TheConstants.{BLOCK_SIZE};
    ghost use Rattle.cs_objstore.specs.Blocks.{state_of, BlockState};

    ghost Value = { BlockState };

    ghost view = { λ b. state_of b.held };

    ghost invariant = { λ b. length (state_of b.held).bytes ≤ BLOCK_SIZE };
}

impl Block {
    /// Nothing was written. It takes no memory.
    pub fn new(alloc: Global) -> Self
        ensures { result ≡ no_block }
    {
        Block {
            held: Held::Own(Vec::new(alloc)),
        }
    }

    /// The bytes up to the last one that was written.
    pub fn as_slice(&self) -> &[u8]
        ensures bytes { result.now ≡ self.now.bytes }
        ensures few { length result.now ≤ BLOCK_SIZE }
    {
        match &self.held {
            Held::Own(own) => own.as_slice(),
            Held::Shared(shared) => shared.as_slice(),
        }
    }

    /// The same block for another state: the two share its bytes.
    pub fn share(&mut self, alloc: Global) -> Result<Block, Memory>
        ensures kept { self.new.bytes ≡ self.old.bytes }
        ensures same { IfOk result (λ b. b.bytes ≡ self.old.bytes) }
    {
        let held = mem::replace(&mut self.held, Held::Own(Vec::new(alloc)));
        match held.into_shared(alloc) {
            Ok(shared) => {
                let other = Arc::try_clone(&shared);
                self.held = Held::Shared(shared);
                Ok(Block {
                    held: Held::Shared(other?),
                })
            }
            Err(own) => {
                self.held = Held::Own(own);
                Err(Memory)
            }
        }
    }

    /// Sees to it that bytes can be written up to `end`, where they lie: a copy takes the place of
    /// what states share, and zeros fill it up. After `Memory` too the block has the bytes that it
    /// had.
    pub fn make_ready(&mut self, alloc: Global, end: usize) -> Result<(), Memory>
        requires { end ≤ BLOCK_SIZE }
        ensures kept { HasBytesOf self.old self.new }
        ensures ready { OnOk result (IsReady end self.new) }
    {
        match &mut self.held {
            Held::Own(own) => fill_up(own, end)?,
            Held::Shared(shared) => {
                let old = shared.as_slice();
                let mut own = Vec::with_capacity(alloc, old.len().max(end))?;
                own.extend_from_slice(old)?;
                fill_up(&mut own, end)?;
                self.held = Held::Own(own);
            }
        }
        Ok(())
    }

    /// Writes those of the bytes that lie in the block, which begins at `start` in its object. The
    /// bytes lie in the object from `off` on.
    pub fn write(&mut self, start: usize, off: usize, bytes: &[u8])
        requires { IsReady (min (off + length bytes.now - start) BLOCK_SIZE) self.old }
        ensures { IsWrittenOver start off bytes.now self.old self.new }
    {
        match &mut self.held {
            Held::Own(own) => lay_over(bytes, off, start, own.as_mut_slice()),
            Held::Shared(_) => unreachable!(),
        }
    }
}

// Fills up with zeros to `end` bytes, where there are fewer. The room doubles where it grows, up to
// that of a block.
fn fill_up(own: &mut Vec<u8>, end: usize) -> Result<(), Memory>
    requires { end ≤ BLOCK_SIZE }
    ensures kept { (k : ℕ) → slice_index own.new.items k ≡ slice_index own.old.items k }
    ensures few { length own.old.items ≤ BLOCK_SIZE → length own.new.items ≤ BLOCK_SIZE }
    ensures reached { OnOk result (end ≤ length own.new.items) }
{
    if own.capacity() < end {
        let room = (2 * own.capacity()).max(end).min(BLOCK_SIZE);
        own.reserve_exact(room - own.len())?;
    }
    if own.len() < end {
        own.resize(end, 0)?;
    }
    Ok(())
}

/// Puts the bytes, which lie from `start` on, over those of `out`, which lie from `off` on.
pub fn lay_over(bytes: &[u8], start: usize, off: usize, out: &mut [u8])
    ensures { EachIndex out.new (λ k. slice_index out.new k ≡ byte_over start bytes.now (off + k) (slice_index out.old k)) }
{
    let skipped = off.saturating_sub(start).min(bytes.len());
    let place = start.saturating_sub(off).min(out.len());
    let count = (bytes.len() - skipped).min(out.len() - place);
    out[place..place + count].copy_from_slice(&bytes[skipped..skipped + count]);
}
