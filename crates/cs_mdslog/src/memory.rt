// A log in memory.
ghost use Rattle.std.specs.Prelude.{◌≡◌, ◌<◌, ◌≤◌, ◌++◌, ◌∷◌, [], Some, length, slice_get, take, IsErrOf, IsOk, OnErr, OnOk};

use crate::{LogFault, MdsLog};
use cs_ids::{Bytes, Failed, Memory};
use std::alloc::Global;
use std::marker::Model;

/// A log in memory. It never fails. Contracts see the bytes of its records, the oldest first, and how
/// many of them are durable.
#[derive(Drop)]
pub struct MemLog {
    records: Vec<Bytes>,
    durable: usize,
    alloc: Global,
}

impl Model for MemLog {
    ghost use Rattle.std.specs.Prelude.{◌≤◌, length};
    ghost use Rattle.cs_mdslog.specs.Logs.{LogState};

    ghost Value = { LogState };

    ghost view = { λ s. record { records = s.records.items; durable = s.durable } };

    ghost invariant = { λ s. s.durable ≤ length s.records.items };
}

impl MemLog {
    /// A log without records. It takes no memory.
    pub fn new(alloc: Global) -> Self
        ensures { result ≡ record { records = []; durable = 0 } }
    {
        MemLog {
            records: Vec::new(alloc),
            durable: 0,
            alloc,
        }
    }

    /// The records, the oldest first.
    pub fn records(&self) -> &[Bytes]
        ensures { result.now ≡ self.now.records }
    {
        self.records.as_slice()
    }

    // Adds a record. After `Memory` all is as before.
    fn push(&mut self, rec: &[u8]) -> Result<(), Memory>
        ensures ok { OnOk result (self.new ≡ record self.old { records = self.old.records ++ rec.now ∷ [] }) }
        ensures err { OnErr result (self.new ≡ self.old) }
    {
        let record = Bytes::from_slice(self.alloc, rec)?;
        self.records.push(record)?;
        Ok(())
    }
}

// Puts the bytes in the place of those that `out` held. After `Memory` it has its bytes as before.
fn replace(out: &mut Vec<u8>, bytes: &[u8]) -> Result<(), Memory>
    ensures ok { OnOk result (out.new.items ≡ bytes.now) }
    ensures err { OnErr result (out.new.items ≡ out.old.items) }
{
    out.reserve(bytes.len().saturating_sub(out.len()))?;
    out.clear();
    out.extend_from_slice(bytes)?;
    Ok(())
}

impl MdsLog for MemLog {
    ghost records = { λ s. s.records };

    ghost durable = { λ s. s.durable };

    ghost faults = { λ _. 0 };

    fn len(&self) -> usize
        ensures { result ≡ length self.now.records }
    {
        self.records.len()
    }

    fn durable(&self) -> usize
        ensures value { result ≡ self.now.durable }
        ensures few { self.now.durable ≤ length self.now.records }
    {
        self.durable
    }

    /// Adds the record, or finds no memory for it.
    fn append(&mut self, rec: &[u8]) -> Result<(), LogFault>
        ensures ok { OnOk result (self.new.records ≡ self.old.records ++ rec.now ∷ []) }
        ensures err { OnErr result (self.new.records ≡ self.old.records) }
        ensures durable { self.new.durable ≡ self.old.durable }
        ensures unfailing { IsErrOf result LogFault.Failed → ⊥ }
    {
        self.push(rec)?;
        Ok(())
    }

    /// Makes all records durable, and never fails.
    fn sync(&mut self) -> Result<(), Failed>
        ensures records { self.new.records ≡ self.old.records }
        ensures ok { OnOk result (self.new.durable ≡ length self.old.records) }
        ensures unfailing { IsOk result }
    {
        self.durable = self.records.len();
        Ok(())
    }

    /// Takes away the records behind the first `keep`, and never fails.
    fn cut(&mut self, keep: usize) -> Result<(), Failed>
        requires durable { self.old.durable ≤ keep }
        requires some { keep ≤ length self.old.records }
        ensures ok { OnOk result ((self.new.records ≡ take keep self.old.records) × (self.new.durable ≡ keep)) }
        ensures unfailing { IsOk result }
    {
        self.records.truncate(keep);
        self.durable = keep;
        Ok(())
    }

    /// Copies the record, or finds no memory for it.
    fn fetch(&mut self, i: usize, out: &mut Vec<u8>) -> Result<(), LogFault>
        requires { i < length self.old.records }
        ensures ok { OnOk result (slice_get self.old.records i ≡ Some out.new.items) }
        ensures err { OnErr result (out.new.items ≡ out.old.items) }
        ensures kept { self.new ≡ self.old }
        ensures unfailing { IsErrOf result LogFault.Failed → ⊥ }
    {
        replace(out, self.records[i].as_slice())?;
        Ok(())
    }
}
