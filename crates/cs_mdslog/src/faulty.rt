// A log in memory of which chosen calls fail.
ghost use Rattle.std.specs.Prelude.{◌≡◌, ◌<◌, ◌≤◌, ◌++◌, ◌∷◌, ◌↔◌, [], Some, length, slice_get, take, true, IfOk, IsErrOf, OnErr, OnOk, is_err};
ghost use Rattle.cs_ids.specs.Devices.{HasCause, Rose};
ghost use Rattle.cs_faults.specs.Plans.{first_call, after_call, is_listed};

use crate::{LogFault, MdsLog, MemLog};
use cs_faults::FaultPlan;
use cs_ids::{Bytes, Failed, Memory};
use std::alloc::Global;
use std::marker::Model;

/// A log in memory of which the listed calls fail. Contracts see the log, and the plan of its calls.
#[derive(Drop)]
pub struct FaultyLog {
    log: MemLog,
    plan: FaultPlan,
}

impl Model for FaultyLog {
    ghost use Rattle.cs_mdslog.specs.Logs.{FaultyState};

    ghost Value = { FaultyState };

    ghost view = { λ s. record { log = s.log; plan = s.plan } };
}

impl FaultyLog {
    /// A log without records. Exactly the calls of `append`, `sync`, `cut` and `fetch` with these
    /// numbers fail, counted from 1 over all of them.
    pub fn new(alloc: Global, calls: &[u32]) -> Result<Self, Memory>
        ensures { IfOk result (λ s. s ≡ record { log = record { records = []; durable = 0 }; plan = first_call calls.now }) }
    {
        Ok(FaultyLog {
            log: MemLog::new(alloc),
            plan: FaultPlan::new(alloc, calls)?,
        })
    }

    /// The records, the oldest first.
    pub fn records(&self) -> &[Bytes]
        ensures { result.now ≡ self.now.log.records }
    {
        self.log.records()
    }
}

impl MdsLog for FaultyLog {
    ghost records = { λ s. s.log.records };

    ghost durable = { λ s. s.log.durable };

    ghost faults = { λ s. s.plan.faults };

    fn len(&self) -> usize
        ensures { result ≡ length self.now.log.records }
    {
        self.log.len()
    }

    fn durable(&self) -> usize
        ensures value { result ≡ self.now.log.durable }
        ensures few { self.now.log.durable ≤ length self.now.log.records }
    {
        self.log.durable()
    }

    /// Fails where the call is listed, and else appends as a log in memory does.
    fn append(&mut self, rec: &[u8]) -> Result<(), LogFault>
        ensures ok { OnOk result (self.new.log.records ≡ self.old.log.records ++ rec.now ∷ []) }
        ensures err { OnErr result (self.new.log.records ≡ self.old.log.records) }
        ensures durable { self.new.log.durable ≡ self.old.log.durable }
        ensures later { self.old.plan.faults ≤ self.new.plan.faults }
        ensures failed { IsErrOf result LogFault.Failed → Rose self.old.plan.faults self.new.plan.faults }
        ensures listed { IsErrOf result LogFault.Failed ↔ (is_listed self.old.plan ≡ true) }
        ensures counted { self.new.plan ≡ after_call (is_listed self.old.plan) self.old.plan }
    {
        self.plan.count_call()?;
        self.log.append(rec)
    }

    /// Fails where the call is listed, and else makes all records durable.
    fn sync(&mut self) -> Result<(), Failed>
        ensures records { self.new.log.records ≡ self.old.log.records }
        ensures ok { OnOk result (self.new.log.durable ≡ length self.old.log.records) }
        ensures err { OnErr result (self.new.log.durable ≡ self.old.log.durable) }
        ensures cause { HasCause self.old.plan.faults self.new.plan.faults result }
        ensures listed { is_err result ≡ is_listed self.old.plan }
        ensures counted { self.new.plan ≡ after_call (is_listed self.old.plan) self.old.plan }
    {
        self.plan.count_call()?;
        self.log.sync()
    }

    /// Fails where the call is listed, and else cuts as a log in memory does.
    fn cut(&mut self, keep: usize) -> Result<(), Failed>
        requires durable { self.old.log.durable ≤ keep }
        requires some { keep ≤ length self.old.log.records }
        ensures ok { OnOk result ((self.new.log.records ≡ take keep self.old.log.records) × (self.new.log.durable ≡ keep)) }
        ensures err { OnErr result (self.new.log ≡ self.old.log) }
        ensures cause { HasCause self.old.plan.faults self.new.plan.faults result }
        ensures listed { is_err result ≡ is_listed self.old.plan }
        ensures counted { self.new.plan ≡ after_call (is_listed self.old.plan) self.old.plan }
    {
        self.plan.count_call()?;
        self.log.cut(keep)
    }

    /// Fails where the call is listed, and else fetches as a log in memory does.
    fn fetch(&mut self, i: usize, out: &mut Vec<u8>) -> Result<(), LogFault>
        requires { i < length self.old.log.records }
        ensures ok { OnOk result (slice_get self.old.log.records i ≡ Some out.new.items) }
        ensures err { OnErr result (out.new.items ≡ out.old.items) }
        ensures kept { self.new.log ≡ self.old.log }
        ensures later { self.old.plan.faults ≤ self.new.plan.faults }
        ensures failed { IsErrOf result LogFault.Failed → Rose self.old.plan.faults self.new.plan.faults }
        ensures listed { IsErrOf result LogFault.Failed ↔ (is_listed self.old.plan ≡ true) }
        ensures counted { self.new.plan ≡ after_call (is_listed self.old.plan) self.old.plan }
    {
        self.plan.count_call()?;
        self.log.fetch(i, out)
    }
}
