// A store in memory of which chosen calls fail.
ghost use Rattle.std.specs.Prelude.{◌≡◌, ◌+◌, ◌≤◌, ◌↔◌, [], length, reverse, true, IfOk, IsErrOf, is_err};
ghost use Rattle.cs_ids.specs.Devices.{HasCause, Rose};
ghost use Rattle.cs_faults.specs.Plans.{first_call, after_call, is_listed};
ghost use Rattle.cs_geom.specs.declared.places.TheConstants.{OBJECT_SIZE};
ghost use Rattle.cs_objstore.specs.Stores.{Applies, ReadsObject};

use crate::{Applied, MemStore, ObjStore, StoreFault};
use cs_faults::FaultPlan;
use cs_ids::{Failed, Memory, Obj};
use cs_laws::{At, ObjOp, ObjOps};
use std::alloc::Global;
use std::marker::Model;

/// A store in memory of which the listed calls fail. Contracts see the operations that were
/// applied, the oldest first, and the plan of its calls.
#[derive(Drop)]
pub struct FaultyStore {
    store: MemStore,
    plan: FaultPlan,
}

impl Model for FaultyStore {
    ghost use Rattle.cs_objstore.specs.Stores.{FaultyState};

    ghost Value = { FaultyState };

    ghost view = { λ s. record { ops = s.store; plan = s.plan } };
}

impl FaultyStore {
    /// A store to which nothing was applied. Exactly the calls of `apply` and `read` with these
    /// numbers fail, counted from 1 over both.
    pub fn new(alloc: Global, calls: &[u32]) -> Result<Self, Memory>
        ensures { IfOk result (λ s. s ≡ record { ops = []; plan = first_call calls.now }) }
    {
        Ok(FaultyStore {
            store: MemStore::new(alloc),
            plan: FaultPlan::new(alloc, calls)?,
        })
    }

    /// The operations that were applied, the oldest first.
    pub fn ops(&self) -> &ObjOps
        ensures { result.now ≡ self.now.ops }
    {
        self.store.ops()
    }
}

impl ObjStore for FaultyStore {
    ghost ops = { λ s. reverse s.ops };

    ghost faults = { λ s. s.plan.faults };

    /// Fails where the call is listed, and else applies as a store in memory does.
    fn apply(&mut self, op: &ObjOp) -> Result<Applied, StoreFault>
        requires { op.now.off + length op.now.bytes ≤ OBJECT_SIZE }
        ensures list { Applies (reverse self.old.ops) (reverse self.new.ops) op.now result }
        ensures later { self.old.plan.faults ≤ self.new.plan.faults }
        ensures failed { IsErrOf result StoreFault.Failed → Rose self.old.plan.faults self.new.plan.faults }
        ensures listed { IsErrOf result StoreFault.Failed ↔ (is_listed self.old.plan ≡ true) }
        ensures counted { self.new.plan ≡ after_call (is_listed self.old.plan) self.old.plan }
    {
        self.plan.count_call()?;
        self.store.apply(op)
    }

    /// Fails where the call is listed, and else reads as a store in memory does.
    fn read(&mut self, obj: Obj, at: At, off: u32, out: &mut [u8]) -> Result<(), Failed>
        requires { off + length out.old ≤ OBJECT_SIZE }
        ensures kept { self.new.ops ≡ self.old.ops }
        ensures bytes { IfOk result (λ _. ReadsObject (reverse self.old.ops) obj at off out.new) }
        ensures cause { HasCause self.old.plan.faults self.new.plan.faults result }
        ensures listed { is_err result ≡ is_listed self.old.plan }
        ensures counted { self.new.plan ≡ after_call (is_listed self.old.plan) self.old.plan }
    {
        self.plan.count_call()?;
        self.store.read(obj, at, off, out)
    }
}
