// What a server appends its records to.
ghost use Rattle.std.specs.Prelude.{◌≡◌, ◌<◌, ◌≤◌, ◌++◌, ◌∷◌, [], ℕ, List, Some, length, slice_get, take, IsErrOf, OnErr, OnOk};
ghost use Rattle.cs_ids.specs.Devices.{HasCause, Rose};

use crate::LogFault;
use cs_ids::Failed;

/// A log of records, after the CephFS documentation of the metadata server's journal. Those from the
/// first one up to some are durable. A call answers `Failed` only where the count of faults rose in that
/// call, and `Memory` for want of memory. After `Failed` and after `Memory` the records, and how many of
/// them are durable, are as before.
pub trait MdsLog: Drop + Send {
    // The bytes of each record, the oldest first.
    ghost records: { Self → List (List ℕ) };

    // How many of them, from the first on, are durable.
    ghost durable: { Self → ℕ };

    // How often the log has failed.
    ghost faults: { Self → ℕ };

    /// How many records there are.
    fn len(&self) -> usize
        ensures { result ≡ length (records self.now) };

    /// How many of the records, from the first on, are durable.
    fn durable(&self) -> usize
        ensures value { result ≡ durable self.now }
        ensures few { durable self.now ≤ length (records self.now) };

    /// Adds a record behind the others. It isn't durable yet.
    fn append(&mut self, rec: &[u8]) -> Result<(), LogFault>
        ensures ok { OnOk result (records self.new ≡ records self.old ++ rec.now ∷ []) }
        ensures err { OnErr result (records self.new ≡ records self.old) }
        ensures durable { durable self.new ≡ durable self.old }
        ensures later { faults self.old ≤ faults self.new }
        ensures failed { IsErrOf result LogFault.Failed → Rose (faults self.old) (faults self.new) };

    /// Makes all records durable.
    fn sync(&mut self) -> Result<(), Failed>
        ensures records { records self.new ≡ records self.old }
        ensures ok { OnOk result (durable self.new ≡ length (records self.old)) }
        ensures err { OnErr result (durable self.new ≡ durable self.old) }
        ensures cause { HasCause (faults self.old) (faults self.new) result };

    /// Takes away the records behind the first `keep`, of which none may be durable, and makes all that
    /// stay durable.
    fn cut(&mut self, keep: usize) -> Result<(), Failed>
        requires durable { durable self.old ≤ keep }
        requires some { keep ≤ length (records self.old) }
        ensures ok { OnOk result ((records self.new ≡ take keep (records self.old)) × (durable self.new ≡ keep)) }
        ensures err { OnErr result ((records self.new ≡ records self.old) × (durable self.new ≡ durable self.old)) }
        ensures cause { HasCause (faults self.old) (faults self.new) result };

    /// Puts the bytes of the record at place `i`, counted from 0, in the place of what `out` held. After
    /// `Failed` and after `Memory` its bytes are as before. The records, and how many of them are
    /// durable, stay as they were.
    fn fetch(&mut self, i: usize, out: &mut Vec<u8>) -> Result<(), LogFault>
        requires { i < length (records self.old) }
        ensures ok { OnOk result (slice_get (records self.old) i ≡ Some out.new.items) }
        ensures err { OnErr result (out.new.items ≡ out.old.items) }
        ensures kept { (records self.new ≡ records self.old) × (durable self.new ≡ durable self.old) }
        ensures later { faults self.old ≤ faults self.new }
        ensures failed { IsErrOf result LogFault.Failed → Rose (faults self.old) (faults self.new) };
}
