// Files in a store of objects: operations of a write are applied in turn, and a file's bytes are read.
ghost use Rattle.std.specs.Prelude.{◌≡◌, ◌+◌, ◌≤◌, true, nat_lt, length, All, IfOk, OnOk, OnErr, IsErrOf};
ghost use Rattle.cs_laws.specs.Answers.{bytes_from};
ghost use Rattle.cs_laws.specs.Devices.{FaultsOf};
ghost use Rattle.cs_laws.specs.Objects.{object_byte};
ghost use Rattle.cs_objstore.specs.Files.{AppliesNew, FitsObject, file_byte, with_new, with_op};

use crate::{Applied, ObjStore, StoreFault};
use cs_geom::split_objects;
use cs_ids::{Bytes, Failed, Ino, Memory, Obj};
use cs_laws::{At, ObjOp, StepFault};
use std::alloc::Global;

/// Applies operations in their order, each unless one of its number was applied before. After a fault a
/// front of them was. `Store` comes only where the store's count of faults rose in this call.
pub fn apply_all<O: ObjStore>(store: &mut O, ops: &[ObjOp]) -> Result<(), StepFault>
    requires { All FitsObject ops.now }
    ensures ok { OnOk result (O.ops store.new ≡ with_new ops.now (O.ops store.old)) }
    ensures front { OnErr result (AppliesNew ops.now (O.ops store.old) (O.ops store.new)) }
    ensures faults { FaultsOf StepFault.Store true (O.faults store.old) (O.faults store.new) result }
    ensures unlogged { IsErrOf result StepFault.Log → ⊥ }
{
    for op in ops {
        apply(store, op)?;
    }
    Ok(())
}

// Applies an operation, unless one of its number was.
fn apply<O: ObjStore>(store: &mut O, op: &ObjOp) -> Result<(), StepFault>
    requires { FitsObject op.now }
    ensures ok { OnOk result (O.ops store.new ≡ with_op op.now (O.ops store.old)) }
    ensures err { OnErr result (O.ops store.new ≡ O.ops store.old) }
    ensures faults { FaultsOf StepFault.Store true (O.faults store.old) (O.faults store.new) result }
    ensures unlogged { IsErrOf result StepFault.Log → ⊥ }
{
    match store.apply(op) {
        Ok(Applied::New | Applied::Dup) => Ok(()),
        Err(StoreFault::Failed) => Err(StepFault::Store),
        Err(StoreFault::Memory) => Err(StepFault::Memory),
    }
}

/// The `count` bytes of a file from the offset `off` on, as its objects have them: one call of the store
/// for each object that they touch. `Store` comes only where the store's count of faults rose in this
/// call.
pub fn read_file<O: ObjStore>(
    alloc: Global,
    store: &mut O,
    file: Ino,
    at: At,
    off: u32,
    count: u32,
) -> Result<Bytes, StepFault>
    requires few { count ≤ 4096 }
    requires within { off + count ≤ 1048576 }
    ensures bytes { IfOk result (λ b. b ≡ bytes_from (file_byte at file (O.ops store.old)) off count) }
    ensures kept { O.ops store.new ≡ O.ops store.old }
    ensures quiet { count ≡ 0 → store.new ≡ store.old }
    ensures faults { FaultsOf StepFault.Store (nat_lt 0 count) (O.faults store.old) (O.faults store.new) result }
    ensures unlogged { IsErrOf result StepFault.Log → ⊥ }
{
    let mut bytes = Bytes::from_slice(alloc, &[])?;
    if count == 0 {
        return Ok(bytes);
    }
    for piece in split_objects(u64::from(off), u64::from(count)) {
        let obj = Obj {
            ino: file,
            index: piece.index,
        };
        let part = read_part(alloc, store, obj, &at, piece.obj_off, piece.len)?;
        bytes.append(part.as_slice())?;
    }
    Ok(bytes)
}

// The object's bytes from a place on.
fn read_part<O: ObjStore>(
    alloc: Global,
    store: &mut O,
    obj: Obj,
    at: &At,
    off: u32,
    count: u32,
) -> Result<Vec<u8>, StepFault>
    requires { off + count ≤ 65536 }
    ensures bytes { IfOk result (λ b. b.items ≡ bytes_from (object_byte at.now obj (O.ops store.old)) off count) }
    ensures kept { O.ops store.new ≡ O.ops store.old }
    ensures faults { FaultsOf StepFault.Store true (O.faults store.old) (O.faults store.new) result }
    ensures unlogged { IsErrOf result StepFault.Log → ⊥ }
{
    let mut part = zeros(alloc, count)?;
    match store.read(obj, *at, off, part.as_mut_slice()) {
        Ok(()) => Ok(part),
        Err(Failed) => Err(StepFault::Store),
    }
}

/// So many bytes, all of them 0.
pub fn zeros(alloc: Global, count: u32) -> Result<Vec<u8>, Memory>
    ensures { IfOk result (λ bytes. length bytes.items ≡ count) }
{
    Ok(vec![in alloc; 0u8; count as usize]?)
}
