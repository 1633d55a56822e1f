// Whole inputs and outputs.
ghost use Rattle.std.specs.Prelude.{◌≡◌, ◌≤◌, IsErrOf, IfOk, OnOk, OnErr};
ghost use Rattle.std.specs.Io.KnownBytes.{Appends};
ghost use Rattle.cs_ids.specs.Devices.{HasCause, Rose};
ghost use Rattle.cs_io.specs.Whole.{ReadsWhole, ConsumesFront, AppendsFront};

use crate::{Sink, Source};
use cs_ids::{Bytes, Failed, Memory};
use std::alloc::Global;
use thiserror::Error;

/// What is asked for of a source in one call, at most.
const CHUNK: usize = 16_384;

/// What `read_all` read.
#[derive(Drop)]
pub enum ReadAll {
    /// All the bytes that were left. The source is at its end.
    All(Bytes),
    /// One byte more than the limit came. These bytes are gone, and the rest is left.
    TooLong,
}

/// Why `read_all` ended early.
#[derive(Clone, Copy, PartialEq, Eq, Debug, Error)]
pub enum ReadFault {
    /// The source failed: its count of faults rose in this call.
    #[error("the source failed")]
    Failed,
    /// Want of memory.
    #[error("out of memory")]
    Memory,
}

impl From<Failed> for ReadFault {
    ghost use Rattle.std.specs.Prelude.{◌≡◌};
    ghost use Rattle.cs_io.specs.declared.whole.ReadFault.TheVariants as faults;

    ghost from_gives = { λ _ fault. fault ≡ faults.Failed };

    fn from(_: Failed) -> Self {
        ReadFault::Failed
    }
}

impl From<Memory> for ReadFault {
    ghost use Rattle.std.specs.Prelude.{◌≡◌};
    ghost use Rattle.cs_io.specs.declared.whole.ReadFault.TheVariants as faults;

    ghost from_gives = { λ _ fault. fault ≡ faults.Memory };

    fn from(_: Memory) -> Self {
        ReadFault::Memory
    }
}

/// Reads all the bytes left where these are at most `limit`. Else it stops at `limit + 1` bytes and
/// answers `TooLong`. After a fault the bytes read so far are gone.
pub fn read_all<S: Source>(
    alloc: Global,
    source: &mut S,
    limit: usize,
) -> Result<ReadAll, ReadFault>
    ensures ok { IfOk result (λ r. ReadsWhole limit (S.left source.old) (S.left source.new) r) }
    ensures err { OnErr result (ConsumesFront (S.left source.old) (S.left source.new)) }
    ensures later { S.faults source.old ≤ S.faults source.new }
    ensures failed { IsErrOf result ReadFault.Failed → Rose (S.faults source.old) (S.faults source.new) }
{
    let mut all = Bytes::new(alloc);
    let mut buf = [0; CHUNK];
    while all.as_slice().len() <= limit {
        let room = (limit - all.as_slice().len()).saturating_add(1).min(CHUNK);
        let count = source.read(&mut buf[..room])?;
        if count == 0 {
            return Ok(ReadAll::All(all));
        }
        all.append(&buf[..count])?;
    }
    Ok(ReadAll::TooLong)
}

/// Writes all the bytes, in order. After `Failed` a front of them was taken, and nothing else.
#[tactic(auto, using(crate::proofs::Known::took_next))]
pub fn write_all<K: Sink>(sink: &mut K, b: &[u8]) -> Result<(), Failed>
    ensures ok { OnOk result (Appends (K.taken sink.old) (K.taken sink.new) b.now) }
    ensures err { OnErr result (AppendsFront (K.taken sink.old) (K.taken sink.new) b.now) }
    ensures cause { HasCause (K.faults sink.old) (K.faults sink.new) result }
{
    let mut rest = b;
    while !rest.is_empty() {
        let count = sink.write(rest)?;
        let (_, after) = rest.split_at(count);
        rest = after;
    }
    Ok(())
}
