// A source and a sink in memory.
ghost use Rattle.std.specs.Prelude.{◌≡◌, ◌<◌, [], ◌++◌, Some, length, IfOk, IsOkAnd, OnErr};
ghost use Rattle.std.specs.Io.{ReadsAtMost, WritesAtMost};
ghost use Rattle.std.specs.Io.KnownBytes.{ReadConsumes, WriteAppends};
ghost use Rattle.cs_ids.specs.Devices.{HasCause};
ghost use Rattle.cs_faults.specs.Counts.{raised};
ghost use Rattle.cs_io.specs.States.{ReadsFront};

use crate::{Sink, Source};
use cs_faults::FaultCount;
use cs_ids::{Bytes, Failed, Memory};
use std::alloc::Global;
use std::marker::Model;

/// Bytes in memory to be read. It never fails. Contracts see the bytes left.
#[derive(Drop)]
pub struct MemSource {
    bytes: Vec<u8>,
    at: usize,
}

impl Model for MemSource {
    ghost use Rattle.std.specs.Prelude.{List, ℕ, ◌≤◌, drop, length};

    ghost Value = { List ℕ };

    ghost view = { λ s. drop s.at s.bytes.items };

    ghost invariant = { λ s. s.at ≤ length s.bytes.items };
}

impl MemSource {
    ghost use Rattle.cs_io.specs.Held.{source_left};

    /// A source of a copy of these bytes.
    pub fn new(alloc: Global, b: &[u8]) -> Result<Self, Memory>
        ensures { IfOk result (λ s. source_left s ≡ Some b.now) }
    {
        Ok(MemSource {
            bytes: Vec::from_slice(alloc, b)?,
            at: 0,
        })
    }
}

impl Source for MemSource {
    ghost use Rattle.cs_io.specs.Held.{source_left};

    ghost left = { source_left };

    ghost faults = { λ _. 0 };

    /// Gives as many bytes as are left and `buf` has room for.
    fn read(&mut self, buf: &mut [u8]) -> Result<usize, Failed>
        ensures bound { ReadsAtMost result buf.new }
        ensures bytes { ReadConsumes (source_left self.old) (source_left self.new) result buf.new }
        ensures cause { HasCause 0 0 result }
        ensures front { IsOkAnd result (ReadsFront self.old self.new buf.old buf.new) }
    {
        let (_, rest) = self.bytes.as_slice().split_at(self.at);
        let count = rest.len().min(buf.len());
        let (front, _) = rest.split_at(count);
        buf[..count].copy_from_slice(front);
        self.at += count;
        Ok(count)
    }
}

/// A sink in memory. It fails only where a growth finds no memory. Contracts see the bytes taken
/// and the count of faults.
#[derive(Drop)]
pub struct MemSink {
    bytes: Bytes,
    faults: FaultCount,
}

impl Model for MemSink {
    ghost use Rattle.cs_io.specs.States.{SinkState};

    ghost Value = { SinkState };

    ghost view = { λ s. record { taken = s.bytes; faults = s.faults } };
}

impl MemSink {
    ghost use Rattle.cs_io.specs.Held.{sink_taken};

    /// A sink that has taken nothing. It takes no memory.
    pub fn new(alloc: Global) -> Self
        ensures taken { sink_taken result ≡ Some [] }
        ensures faults { result.faults ≡ 0 }
    {
        MemSink {
            bytes: Bytes::new(alloc),
            faults: FaultCount::new(),
        }
    }

    /// The bytes taken.
    pub fn bytes(&self) -> &[u8]
        ensures { Some result.now ≡ sink_taken self.now }
    {
        self.bytes.as_slice()
    }
}

impl Sink for MemSink {
    ghost use Rattle.cs_io.specs.Held.{sink_taken};

    ghost taken = { sink_taken };

    ghost faults = { λ s. s.faults };

    /// Takes all the bytes, or fails for want of memory.
    fn write(&mut self, buf: &[u8]) -> Result<usize, Failed>
        ensures bound { WritesAtMost result buf.now }
        ensures some { 0 < length buf.now → IfOk result (λ n. 0 < n) }
        ensures bytes { WriteAppends (sink_taken self.old) (sink_taken self.new) result buf.now }
        ensures cause { HasCause self.old.faults self.new.faults result }
        ensures all { IfOk result (λ n. n ≡ length buf.now) }
        ensures quiet { IfOk result (λ _. self.new.faults ≡ self.old.faults) }
        ensures once { OnErr result (self.new.faults ≡ raised self.old.faults) }
    {
        match self.bytes.append(buf) {
            Ok(()) => Ok(buf.len()),
            Err(Memory) => {
                self.faults.raise();
                Err(Failed)
            }
        }
    }
}
