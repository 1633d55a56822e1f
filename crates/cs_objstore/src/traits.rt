// What a client writes its objects to and reads them from.
ghost use Rattle.std.specs.Prelude.{◌≡◌, ◌+◌, ◌≤◌, ℕ, List, length, IfOk, IsErrOf};
ghost use Rattle.cs_geom.specs.declared.places.TheConstants.{OBJECT_SIZE};
ghost use Rattle.cs_ids.specs.Devices.{HasCause, Rose};
ghost use Rattle.cs_laws.specs.declared.objects.ObjOp.{ObjOp};
ghost use Rattle.cs_objstore.specs.Stores.{Applies, ReadsObject};

use crate::{Applied, StoreFault};
use cs_ids::{Failed, Obj};
use cs_laws::{At, ObjOp};

/// A store of objects. An object has 65,536 bytes, of which those that were never written are zero.
pub trait ObjStore: Drop + Send {
    // The operations that were applied, the newest first.
    ghost ops: { Self → List ObjOp };

    // How often the store has failed.
    ghost faults: { Self → ℕ };

    /// Applies an operation, whose bytes end within the object. It answers `Dup`, and applies
    /// nothing, exactly where an operation of the same number was applied before. `Failed` comes
    /// only where the count of faults rose in this call. After `Failed` and after `Memory` the list
    /// of operations is as before.
    fn apply(&mut self, op: &ObjOp) -> Result<Applied, StoreFault>
        requires { op.now.off + length op.now.bytes ≤ OBJECT_SIZE }
        ensures list { Applies (ops self.old) (ops self.new) op.now result }
        ensures later { faults self.old ≤ faults self.new }
        ensures failed { IsErrOf result StoreFault.Failed → Rose (faults self.old) (faults self.new) };

    /// Fills `out`, which ends within the object, with the object's bytes from `off` on. The head
    /// has what all operations on the object made of it. A snapshot has what they made of it before
    /// the first one whose context has a number of at least the snapshot's: as in RADOS, which
    /// clones an object before such an operation. `Failed` comes only where the count of faults rose
    /// in this call. The list of operations stays as it was.
    fn read(&mut self, obj: Obj, at: At, off: u32, out: &mut [u8]) -> Result<(), Failed>
        requires { off + length out.old ≤ OBJECT_SIZE }
        ensures kept { ops self.new ≡ ops self.old }
        ensures bytes { IfOk result (λ _. ReadsObject (ops self.old) obj at off out.new) }
        ensures cause { HasCause (faults self.old) (faults self.new) result };
}
