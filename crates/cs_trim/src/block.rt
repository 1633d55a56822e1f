// A part of an object's bytes. Images share it, and it stays as it is.
ghost use Rattle.std.specs.Prelude.{◌≡◌, ℕ, ◌+◌, ◌≤◌, [], length, slice_index, EachIndex, IfOk};
ghost use Rattle.cs_geom.specs.declared.places.TheConstants.{OBJECT_SIZE};
ghost use Rattle.cs_laws.specs.Image.{byte_over};
ghost use Rattle.cs_trim.specs.Blocks.{IsWrittenOver};
ghost use Rattle.cs_trim.specs.declared.block.TheConstants.{BLOCK_SIZE};

use cs_ids::Memory;
use std::alloc::{AllocError, Global};
use std::marker::Model;
use std::sync::Arc;

/// The bytes of a block.
pub const BLOCK_SIZE: usize = 4096;

/// Up to 4,096 bytes of an object. What is behind them in the block is zero.
#[derive(Drop)]
pub struct Block {
    bytes: Arc<Vec<u8>>,
}

impl Model for Block {
    ghost use Rattle.std.specs.Prelude.{List, ℕ, ◌≤◌, length};
    ghost use Rattle.cs_trim.specs.declared.block.TheConstants.{BLOCK_SIZE};

    ghost Value = { List ℕ };

    ghost view = { λ b. b.bytes.value.items };

    ghost invariant = { λ b. length b.bytes.value.items ≤ BLOCK_SIZE };
}

impl Block {
    // The block of these bytes.
    fn from_vec(alloc: Global, bytes: Vec<u8>) -> Result<Self, Memory>
        requires { length bytes.items ≤ BLOCK_SIZE }
        ensures { IfOk result (λ b. b ≡ bytes.items) }
    {
        Ok(Block {
            bytes: Arc::new(alloc, bytes)?,
        })
    }

    /// Nothing was written.
    pub fn empty(alloc: Global) -> Result<Self, Memory>
        ensures { IfOk result (λ b. b ≡ []) }
    {
        Self::from_vec(alloc, Vec::new(alloc))
    }

    /// The bytes up to the last one that was written.
    pub fn as_slice(&self) -> &[u8]
        ensures bytes { result.now ≡ self.now }
        ensures few { length result.now ≤ BLOCK_SIZE }
    {
        self.bytes.as_slice()
    }

    /// The same block for another image: the two share its bytes.
    pub fn share(&self) -> Result<Self, Memory>
        ensures { IfOk result (λ b. b ≡ self.now) }
    {
        Ok(Block {
            bytes: Arc::try_clone(&self.bytes)?,
        })
    }

    /// A block that begins at `start` in its object and has the bytes of `old`, with `bytes` written
    /// over them. These lie in the object from `off` on.
    pub fn written_over(
        alloc: Global,
        old: &[u8],
        start: usize,
        off: usize,
        bytes: &[u8],
    ) -> Result<Self, Memory>
        requires few { length old.now ≤ BLOCK_SIZE }
        requires within { off + length bytes.now ≤ OBJECT_SIZE }
        ensures { IfOk result (IsWrittenOver start off bytes.now old.now) }
    {
        let end = (off + bytes.len()).saturating_sub(start).min(BLOCK_SIZE);
        let mut whole = grown(alloc, old, end)?;
        lay_over(bytes, off, start, whole.as_mut_slice());
        Self::from_vec(alloc, whole)
    }
}

// A copy, filled up with zeros to `end` bytes where there are fewer.
fn grown(alloc: Global, old: &[u8], end: usize) -> Result<Vec<u8>, AllocError>
    requires few { length old.now ≤ BLOCK_SIZE }
    requires end { end ≤ BLOCK_SIZE }
    ensures kept { IfOk result (λ v. (k : ℕ) → slice_index v.items k ≡ slice_index old.now k) }
    ensures few { IfOk result (λ v. length v.items ≤ BLOCK_SIZE) }
    ensures reached { IfOk result (λ v. end ≤ length v.items) }
{
    let mut whole = Vec::with_capacity(alloc, end.max(old.len()))?;
    whole.extend_from_slice(old)?;
    if whole.len() < end {
        whole.resize(end, 0)?;
    }
    Ok(whole)
}

/// Puts the bytes, which lie from `start` on, over those of `out`, which lie from `off` on.
pub fn lay_over(bytes: &[u8], start: usize, off: usize, out: &mut [u8])
    ensures { EachIndex out.new (λ k. slice_index out.new k ≡ byte_over start bytes.now (off + k) (slice_index out.old k)) }
{
    let skipped = off.saturating_sub(start).min(bytes.len());
    let place = start.saturating_sub(off).min(out.len());
    let count = (bytes.len() - skipped).min(out.len() - place);
    out[place..place + count].copy_from_slice(&bytes[skipped..skipped + count]);
}
