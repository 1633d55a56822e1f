// The edge over std's readers and writers.
ghost use Rattle.std.specs.Prelude.{◌≡◌, ◌<◌, length, IfOk, OnOk, OnErr};
ghost use Rattle.std.specs.Io.{ReadsAtMost, WritesAtMost};
ghost use Rattle.std.specs.Io.KnownBytes.{ReadConsumes, WriteAppends};
ghost use Rattle.cs_ids.specs.Devices.{HasCause};
ghost use Rattle.cs_faults.specs.Counts.{raised};

use crate::{Sink, Source};
use cs_faults::FaultCount;
use cs_ids::Failed;
use std::io::{Read, Write};

/// A source over a reader of std. Each error of the reader is a fault.
#[derive(Drop)]
pub struct StdSource<R: Read + Drop> {
    inner: R,
    faults: FaultCount,
}

impl<R: Read + Drop> StdSource<R> {
    /// A source of what the reader gives.
    pub fn new(inner: R) -> Self
        ensures left { ⟦<StdSource<R> as Source>⟧.left result ≡ R.remaining inner }
        ensures faults { ⟦<StdSource<R> as Source>⟧.faults result ≡ 0 }
    {
        StdSource {
            inner,
            faults: FaultCount::new(),
        }
    }
}

impl<R: Read + Drop> Source for StdSource<R> {
    ghost left = { λ s. R.remaining s.inner };

    ghost faults = { λ s. s.faults };

    /// One read of the reader.
    fn read(&mut self, buf: &mut [u8]) -> Result<usize, Failed>
        ensures bound { ReadsAtMost result buf.new }
        ensures bytes { ReadConsumes (R.remaining self.old.inner) (R.remaining self.new.inner) result buf.new }
        ensures cause { HasCause self.old.faults self.new.faults result }
        ensures quiet { OnOk result (self.new.faults ≡ self.old.faults) }
        ensures once { OnErr result (self.new.faults ≡ raised self.old.faults) }
    {
        match self.inner.read(buf) {
            Ok(count) => Ok(count),
            Err(_) => {
                self.faults.raise();
                Err(Failed)
            }
        }
    }
}

/// A sink over a writer of std. Each error of the writer is a fault, and so is a write of no byte
/// of a `buf` that has some.
#[derive(Drop)]
pub struct StdSink<W: Write + Drop> {
    inner: W,
    faults: FaultCount,
}

impl<W: Write + Drop> StdSink<W> {
    /// A sink that hands its bytes to the writer.
    pub fn new(inner: W) -> Self
        ensures taken { ⟦<StdSink<W> as Sink>⟧.taken result ≡ W.contents inner }
        ensures faults { ⟦<StdSink<W> as Sink>⟧.faults result ≡ 0 }
    {
        StdSink {
            inner,
            faults: FaultCount::new(),
        }
    }
}

impl<W: Write + Drop> Sink for StdSink<W> {
    ghost taken = { λ s. W.contents s.inner };

    ghost faults = { λ s. s.faults };

    /// One write of the writer.
    fn write(&mut self, buf: &[u8]) -> Result<usize, Failed>
        ensures bound { WritesAtMost result buf.now }
        ensures some { 0 < length buf.now → IfOk result (λ n. 0 < n) }
        ensures bytes { WriteAppends (W.contents self.old.inner) (W.contents self.new.inner) result buf.now }
        ensures cause { HasCause self.old.faults self.new.faults result }
        ensures quiet { OnOk result (self.new.faults ≡ self.old.faults) }
        ensures once { OnErr result (self.new.faults ≡ raised self.old.faults) }
    {
        match self.inner.write(buf) {
            Ok(count) if count > 0 || buf.is_empty() => Ok(count),
            _ => {
                self.faults.raise();
                Err(Failed)
            }
        }
    }
}
