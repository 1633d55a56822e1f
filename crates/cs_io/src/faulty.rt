// A source and a sink in memory of which chosen calls fail.
ghost use Rattle.std.specs.Prelude.{◌≡◌, ◌<◌, [], Some, length, true, IfOk, IsErr, is_err};
ghost use Rattle.std.specs.Io.{ReadsAtMost, WritesAtMost};
ghost use Rattle.std.specs.Io.KnownBytes.{ReadConsumes, WriteAppends};
ghost use Rattle.cs_ids.specs.Devices.{HasCause};
ghost use Rattle.cs_faults.specs.Plans.{first_call, after_call, is_listed};
ghost use Rattle.cs_io.specs.States.{ReadsFront};

use crate::{MemSink, MemSource, Sink, Source};
use cs_faults::FaultPlan;
use cs_ids::{Failed, Memory};
use std::alloc::Global;
use std::marker::Model;

/// A source in memory of which the listed calls fail. Contracts see the bytes left and the plan of
/// its calls.
#[derive(Drop)]
pub struct FaultySource {
    source: MemSource,
    plan: FaultPlan,
}

impl Model for FaultySource {
    ghost use Rattle.cs_io.specs.States.{FaultyState};

    ghost Value = { FaultyState };

    ghost view = { λ s. record { bytes = s.source; plan = s.plan } };
}

impl FaultySource {
    /// A source of a copy of these bytes. Exactly the calls of `read` with these numbers fail,
    /// counted from 1.
    pub fn new(alloc: Global, b: &[u8], calls: &[u32]) -> Result<Self, Memory>
        ensures { IfOk result (λ s. s ≡ record { bytes = b.now; plan = first_call calls.now }) }
    {
        Ok(FaultySource {
            source: MemSource::new(alloc, b)?,
            plan: FaultPlan::new(alloc, calls)?,
        })
    }
}

impl Source for FaultySource {
    ghost left = { λ s. Some s.bytes };

    ghost faults = { λ s. s.plan.faults };

    /// Fails where the call is listed, and else reads as a source in memory does.
    fn read(&mut self, buf: &mut [u8]) -> Result<usize, Failed>
        ensures bound { ReadsAtMost result buf.new }
        ensures bytes { ReadConsumes (Some self.old.bytes) (Some self.new.bytes) result buf.new }
        ensures cause { HasCause self.old.plan.faults self.new.plan.faults result }
        ensures listed { is_err result ≡ is_listed self.old.plan }
        ensures counted { self.new.plan ≡ after_call (is_err result) self.old.plan }
        ensures front { IfOk result (ReadsFront self.old.bytes self.new.bytes buf.old buf.new) }
    {
        self.plan.count_call()?;
        self.source.read(buf)
    }
}

/// A sink in memory of which the listed calls fail. Contracts see the bytes taken and the plan of
/// its calls.
#[derive(Drop)]
pub struct FaultySink {
    sink: MemSink,
    plan: FaultPlan,
}

impl Model for FaultySink {
    ghost use Rattle.cs_io.specs.States.{FaultyState};

    ghost Value = { FaultyState };

    ghost view = { λ s. record { bytes = s.sink.taken; plan = s.plan } };
}

impl FaultySink {
    /// A sink that has taken nothing. Exactly the calls of `write` with these numbers fail, counted
    /// from 1, but for those that find no memory.
    pub fn new(alloc: Global, calls: &[u32]) -> Result<Self, Memory>
        ensures { IfOk result (λ s. s ≡ record { bytes = []; plan = first_call calls.now }) }
    {
        Ok(FaultySink {
            sink: MemSink::new(alloc),
            plan: FaultPlan::new(alloc, calls)?,
        })
    }

    /// The bytes taken.
    pub fn bytes(&self) -> &[u8]
        ensures { result.now ≡ self.now.bytes }
    {
        self.sink.bytes()
    }
}

impl Sink for FaultySink {
    ghost taken = { λ s. Some s.bytes };

    ghost faults = { λ s. s.plan.faults };

    /// Fails where the call is listed, and else takes all the bytes or fails for want of memory.
    fn write(&mut self, buf: &[u8]) -> Result<usize, Failed>
        ensures bound { WritesAtMost result buf.now }
        ensures some { 0 < length buf.now → IfOk result (λ n. 0 < n) }
        ensures bytes { WriteAppends (Some self.old.bytes) (Some self.new.bytes) result buf.now }
        ensures cause { HasCause self.old.plan.faults self.new.plan.faults result }
        ensures listed { is_listed self.old.plan ≡ true → IsErr result }
        ensures counted { self.new.plan ≡ after_call (is_err result) self.old.plan }
        ensures all { IfOk result (λ n. n ≡ length buf.now) }
    {
        self.plan.count_call()?;
        let written = self.sink.write(buf);
        if written.is_err() {
            self.plan.count_fault();
        }
        written
    }
}
