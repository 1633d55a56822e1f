// The operations that the object store applies.
ghost use Rattle.std.specs.Prelude.{◌≡◌, IfOk};

use cs_ids::{Bytes, Items, Memory, Obj, Snap, Tid};
use cs_snapctx::SnapContext;
use std::alloc::Global;

/// Which state of an object, or of a file.
#[derive(Clone, Copy)]
pub enum At {
    /// The present one.
    Head,
    /// That at a snapshot.
    Snap(Snap),
}

/// An operation: bytes that are written to an object from an offset on, under a snapshot context.
#[derive(Drop)]
pub struct ObjOp {
    /// Its number among all operations of the client, from 1.
    pub tid: Tid,
    pub obj: Obj,
    /// The place in the object of the first byte, 0 to 65,535.
    pub off: u32,
    pub bytes: Bytes,
    /// The context of the write that it brings.
    pub ctx: SnapContext,
}

impl ObjOp {
    /// A copy, equal to the operation.
    pub fn copy(&self, alloc: Global) -> Result<ObjOp, Memory>
        ensures { IfOk result (λ o. o ≡ self.now) }
    {
        Ok(ObjOp {
            tid: self.tid,
            obj: self.obj,
            off: self.off,
            bytes: Bytes::from_slice(alloc, self.bytes.as_slice())?,
            ctx: self.ctx.copy()?,
        })
    }
}

/// Operations in an order.
pub type ObjOps = Items<ObjOp>;
