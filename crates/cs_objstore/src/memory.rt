// A store in memory.
ghost use Rattle.std.specs.Prelude.{◌≡◌, ◌+◌, ◌≤◌, ◌++◌, [], ◌∷◌, length, reverse, IsOk, IfOk, OnOk, OnErr, IsErrOf};
ghost use Rattle.cs_geom.specs.declared.places.TheConstants.{OBJECT_SIZE};
ghost use Rattle.cs_objstore.specs.Clones.{clones_of};
ghost use Rattle.cs_objstore.specs.Stores.{has_tid, Applies, ReadsObject};

use crate::object::Object;
use crate::{Applied, ObjStore, StoreFault};
use cs_ids::{Failed, Ino, Memory, Obj, Tid};
use cs_laws::{At, ObjOp, ObjOps};
use std::alloc::Global;
use std::collections::{HashMap, HashSet};
use std::marker::Model;

// By what an object is found.
#[derive(Clone, Copy, PartialEq, Eq, Hash)]
struct Key {
    ino: Ino,
    index: u32,
}

impl Key {
    fn of(obj: Obj) -> Self
        ensures ino { result.ino ≡ obj.ino }
        ensures index { result.index ≡ obj.index }
    {
        Key {
            ino: obj.ino,
            index: obj.index,
        }
    }
}

/// A store in memory. It never fails. Contracts see the operations that were applied, the oldest
/// first.
#[derive(Drop)]
pub struct MemStore {
    // A record of what was applied. Bytes are read from the objects alone.
    ops: ObjOps,
    objects: HashMap<Key, Object>,
    // The numbers of the operations.
    tids: HashSet<Tid>,
    alloc: Global,
}

impl Model for MemStore {
    ghost use Rattle.std.specs.Prelude.{List};
    ghost use Rattle.cs_laws.specs.declared.objects.ObjOp.{ObjOp};
    ghost use Rattle.cs_objstore.specs.Found.{Stands};

    ghost Value = { List ObjOp };

    ghost view = { λ s. s.ops };

    ghost invariant = { λ s. Stands s.ops s.objects s.tids };
}

impl MemStore {
    /// A store to which nothing was applied. It takes no memory.
    pub fn new(alloc: Global) -> Self
        ensures { result ≡ [] }
    {
        MemStore {
            ops: ObjOps::new(alloc),
            objects: HashMap::new(alloc),
            tids: HashSet::new(alloc),
            alloc,
        }
    }

    /// The operations that were applied, the oldest first.
    pub fn ops(&self) -> &ObjOps
        ensures { result.now ≡ self.now }
    {
        &self.ops
    }

    /// How often the object was cloned: the number of operations on it that were applied, each with
    /// an earlier one on the object, whose context's number is greater than those of all earlier
    /// ones. It takes no memory.
    pub fn clones(&self, obj: Obj) -> u32
        ensures { result ≡ clones_of obj (reverse self.now) }
    {
        match self.objects.get(&Key::of(obj)) {
            Some(object) => object.clones(),
            None => 0,
        }
    }

    // Whether an operation of this number was applied.
    fn has(&self, tid: &Tid) -> bool
        ensures { result ≡ has_tid tid.now self.now }
    {
        self.tids.contains(tid)
    }

    // Applies an operation whose number is new. After `Memory` the list is as before.
    fn write(&mut self, op: &ObjOp) -> Result<(), Memory>
        requires { op.now.off + length op.now.bytes ≤ OBJECT_SIZE }
        ensures ok { OnOk result (self.new ≡ self.old ++ op.now ∷ []) }
        ensures err { OnErr result (self.new ≡ self.old) }
    {
        self.tids.reserve(1)?;
        let entry = self.objects.entry(Key::of(op.obj))?;
        let object = entry.or_insert(Object::new(self.alloc));
        object.write(self.alloc, op, &mut self.ops)?;
        self.tids.insert(op.tid)?;
        Ok(())
    }
}

impl ObjStore for MemStore {
    ghost ops = { λ s. reverse s };

    ghost faults = { λ _. 0 };

    /// Applies the operation where none of its number was applied before, or finds no memory for it.
    #[tactic(auto, using(crate::proofs::Tids::has_tid_reverse, crate::proofs::Tids::reverse_pushed))]
    fn apply(&mut self, op: &ObjOp) -> Result<Applied, StoreFault>
        requires { op.now.off + length op.now.bytes ≤ OBJECT_SIZE }
        ensures list { Applies (reverse self.old) (reverse self.new) op.now result }
        ensures unfailing { IsErrOf result StoreFault.Failed → ⊥ }
    {
        if self.has(&op.tid) {
            return Ok(Applied::Dup);
        }
        self.write(op)?;
        Ok(Applied::New)
    }

    /// Reads the object, and never fails.
    fn read(&mut self, obj: Obj, at: At, off: u32, out: &mut [u8]) -> Result<(), Failed>
        requires { off + length out.old ≤ OBJECT_SIZE }
        ensures kept { self.new ≡ self.old }
        ensures bytes { IfOk result (λ _. ReadsObject (reverse self.old) obj at off out.new) }
        ensures unfailing { IsOk result }
    {
        match self.objects.get(&Key::of(obj)) {
            Some(object) => object.read(&at, off, out),
            None => out.fill(0),
        }
        Ok(())
    }
}
