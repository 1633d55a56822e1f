// An object: its head, and the clones that serve its snapshots.
ghost use Rattle.std.specs.Prelude.{◌≡◌, ◌+◌, ◌-◌, ◌<◌, ◌≤◌, ◌++◌, true, false, [], ◌∷◌, length, drop, slice_index, EachIndex, IfOk, OnOk, OnErr};
ghost use Rattle.cs_geom.specs.declared.places.TheConstants.{OBJECT_SIZE};
ghost use Rattle.cs_objstore.specs.Blocks.{byte_in, HasAllBytesOf, Writes};
ghost use Rattle.cs_objstore.specs.Versions.{clones_after, image_at, image_of, is_newer, newer, place, since_after, since_of, AreSame};

use crate::image::Image;
use cs_ids::{Memory, Seq, Snap};
use cs_laws::{At, ObjOp, ObjOps};
use std::alloc::Global;
use std::collections::VecDeque;
use std::marker::Model;

/// A version of an object. It serves the snapshots above `since` up to the `since` of the next newer
/// version.
#[derive(Drop)]
pub struct Version {
    // The number of the context of the operation that began it.
    since: Seq,
    image: Image,
}

impl Version {
    // Writes an operation to the version, and adds it to the list. After `Memory` the list is as
    // before, and the version has the bytes that it had.
    fn write(&mut self, alloc: Global, op: &ObjOp, ops: &mut ObjOps) -> Result<(), Memory>
        requires { op.now.off + length op.now.bytes ≤ OBJECT_SIZE }
        ensures since { self.new.since ≡ self.old.since }
        ensures listed { OnOk result (ops.new ≡ ops.old ++ op.now ∷ []) }
        ensures written { OnOk result (Writes op.now.off op.now.bytes self.old.image self.new.image) }
        ensures err { OnErr result ((ops.new ≡ ops.old) × HasAllBytesOf self.old.image self.new.image) }
    {
        let copy = op.copy(alloc)?;
        let bytes = op.bytes.as_slice();
        self.image.make_ready(alloc, op.off, bytes.len())?;
        ops.push(copy)?;
        self.image.write(op.off, bytes);
        Ok(())
    }
}

/// The versions of an object, the newest first: the head, and then its clones. No version is there
/// where the object wasn't written.
#[derive(Drop)]
pub struct Object {
    versions: VecDeque<Version>,
}

impl Model for Object {
    ghost use Rattle.std.specs.Prelude.{List};
    ghost use Rattle.cs_objstore.specs.declared.object.Version.{Version};
    ghost use Rattle.cs_objstore.specs.Versions.{Falls};

    ghost Value = { List Version };

    ghost view = { λ o. o.versions.items };

    ghost invariant = { λ o. Falls o.versions.items };
}

impl Object {
    /// An object that wasn't written. It takes no memory.
    pub fn new(alloc: Global) -> Self
        ensures { result ≡ [] }
    {
        Object {
            versions: VecDeque::new(alloc),
        }
    }

    /// How many clones were made.
    pub fn clones(&self) -> u32
        ensures { result ≡ length self.now - 1 }
    {
        let Some(head) = self.versions.front() else {
            return 0;
        };
        let clones = self.versions.len() - 1;
        let greatest = head.since.get();
        prove!(clones as u64 <= greatest);
        clones as u32
    }

    /// Fills `out` with the bytes of a state from `off` on.
    pub fn read(&self, at: &At, off: u32, out: &mut [u8])
        ensures { EachIndex out.new (λ k. slice_index out.new k ≡ byte_in (image_at at.now self.now) (off + k)) }
    {
        match self.versions.get(self.place(at)) {
            Some(version) => version.image.read(off, out),
            None => out.fill(0),
        }
    }

    // Where the version of a state stands: behind those that began at the snapshot or later.
    fn place(&self, at: &At) -> usize
        ensures { result ≡ place at.now self.now }
    {
        match at {
            At::Head => 0,
            At::Snap(snap) => self.newer(snap),
        }
    }

    // How many of the newest versions began at the snapshot or later.
    fn newer(&self, snap: &Snap) -> usize
        ensures { result ≡ newer snap.now self.now }
    {
        let number = snap.get();
        self.versions
            .partition_point(|version| version.since.get() >= number)
    }

    // Whether the number is above those of all contexts so far.
    fn is_newer(&self, seq: Seq) -> bool
        ensures { result ≡ is_newer seq self.now }
    {
        match self.versions.front() {
            Some(head) => head.since.get() < seq.get(),
            None => true,
        }
    }

    // The version that an operation of a newer context begins: it has the bytes of the head, with
    // which it shares all blocks. After `Memory` too the versions have the bytes that they had.
    #[tactic(auto, using(crate::proofs::Same::same_head))]
    fn begin(&mut self, alloc: Global, since: Seq) -> Result<Version, Memory>
        ensures kept { AreSame self.old self.new }
        ensures since { IfOk result (λ v. v.since ≡ since) }
        ensures bytes { IfOk result (λ v. HasAllBytesOf (image_of self.old) v.image) }
    {
        let Some(head) = self.versions.front_mut() else {
            return Ok(Version {
                since,
                image: Image::new(alloc),
            });
        };
        let image = head.image.share(alloc)?;
        Ok(Version { since, image })
    }

    /// Writes an operation to the head, and adds it to the list. Before one whose context has a
    /// number above all earlier ones the head becomes a clone. After `Memory` the list is as before,
    /// and the versions have the bytes that they had.
    pub fn write(&mut self, alloc: Global, op: &ObjOp, ops: &mut ObjOps) -> Result<(), Memory>
        requires { op.now.off + length op.now.bytes ≤ OBJECT_SIZE }
        ensures listed { OnOk result (ops.new ≡ ops.old ++ op.now ∷ []) }
        ensures written { OnOk result (Writes op.now.off op.now.bytes (image_of self.old) (image_of self.new)) }
        ensures since { OnOk result (since_of self.new ≡ since_after op.now.ctx.seq self.old) }
        ensures clones { OnOk result (AreSame (clones_after op.now.ctx.seq self.old) (drop 1 self.new)) }
        ensures some { OnOk result (0 < length self.new) }
        ensures err { OnErr result ((ops.new ≡ ops.old) × AreSame self.old self.new) }
    {
        if self.is_newer(op.ctx.seq()) {
            self.write_newer(alloc, op, ops)
        } else {
            self.write_head(alloc, op, ops)
        }
    }

    // The same for an operation whose context has a number above all earlier ones.
    fn write_newer(&mut self, alloc: Global, op: &ObjOp, ops: &mut ObjOps) -> Result<(), Memory>
        requires within { op.now.off + length op.now.bytes ≤ OBJECT_SIZE }
        requires newer { is_newer op.now.ctx.seq self.old ≡ true }
        ensures listed { OnOk result (ops.new ≡ ops.old ++ op.now ∷ []) }
        ensures written { OnOk result (Writes op.now.off op.now.bytes (image_of self.old) (image_of self.new)) }
        ensures since { OnOk result (since_of self.new ≡ op.now.ctx.seq) }
        ensures clones { OnOk result (AreSame self.old (drop 1 self.new)) }
        ensures some { OnOk result (0 < length self.new) }
        ensures err { OnErr result ((ops.new ≡ ops.old) × AreSame self.old self.new) }
    {
        let mut version = self.begin(alloc, op.ctx.seq())?;
        self.versions.reserve(1)?;
        version.write(alloc, op, ops)?;
        self.versions.push_front(version)?;
        Ok(())
    }

    // The same for one whose context's number isn't: the head goes on.
    #[tactic(auto, using(crate::proofs::Same::same_head, crate::proofs::Same::same_behind))]
    fn write_head(&mut self, alloc: Global, op: &ObjOp, ops: &mut ObjOps) -> Result<(), Memory>
        requires within { op.now.off + length op.now.bytes ≤ OBJECT_SIZE }
        requires not_newer { is_newer op.now.ctx.seq self.old ≡ false }
        ensures listed { OnOk result (ops.new ≡ ops.old ++ op.now ∷ []) }
        ensures written { OnOk result (Writes op.now.off op.now.bytes (image_of self.old) (image_of self.new)) }
        ensures since { OnOk result (since_of self.new ≡ since_of self.old) }
        ensures clones { OnOk result (AreSame (drop 1 self.old) (drop 1 self.new)) }
        ensures some { OnOk result (0 < length self.new) }
        ensures err { OnErr result ((ops.new ≡ ops.old) × AreSame self.old self.new) }
    {
        let Some(head) = self.versions.front_mut() else {
            unreachable!();
        };
        head.write(alloc, op, ops)?;
        Ok(())
    }
}
