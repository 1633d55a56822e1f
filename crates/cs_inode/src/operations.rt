// The operations of a direct write.
ghost use Rattle.std.specs.Prelude.{◌≡◌, ◌+◌, ◌<◌, ◌≤◌, true, length, IfOk};
ghost use Rattle.cs_geom.specs.declared.places.TheConstants.{OBJECT_SIZE};
ghost use Rattle.cs_geom.specs.Cuts.{pieces_of};
ghost use Rattle.cs_geom.specs.Places.{offset_of, end_of};
ghost use Rattle.cs_laws.specs.Fits.{is_write};
ghost use Rattle.cs_laws.specs.Operations.{operation, operations};

use cs_geom::{Piece, split_objects};
use cs_ids::{Bytes, Ino, Memory, Obj, Tid};
use cs_laws::{ObjOp, ObjOps};
use cs_snapctx::SnapContext;
use std::alloc::Global;

// One operation for each object that the bytes touch from an offset of a file on, in rising order,
// with numbers from `tid` on.
pub(crate) fn write_operations(
    alloc: Global,
    context: &SnapContext,
    tid: Tid,
    file: Ino,
    off: u32,
    bytes: &[u8],
) -> Result<ObjOps, Memory>
    requires fits { is_write off bytes.now ≡ true }
    requires number { tid < 99999 }
    ensures { IfOk result (λ ops. ops ≡ operations tid file off bytes.now context.now (pieces_of OBJECT_SIZE off (length bytes.now))) }
{
    let mut ops = ObjOps::new(alloc);
    let mut number = tid.get();
    for piece in split_objects(u64::from(off), bytes.len() as u64) {
        ops.push(operation(alloc, context, number, file, off, bytes, &piece)?)?;
        number += 1;
    }
    Ok(ops)
}

// The operation of a piece of the bytes.
fn operation(
    alloc: Global,
    context: &SnapContext,
    number: u64,
    file: Ino,
    off: u32,
    bytes: &[u8],
    piece: &Piece,
) -> Result<ObjOp, Memory>
    requires number { (1 ≤ number) × (number ≤ 99999) }
    requires from { off ≤ offset_of piece.now }
    requires to { end_of piece.now ≤ off + length bytes.now }
    ensures { IfOk result (λ op. op ≡ operation number file off bytes.now context.now piece.now) }
{
    let Some(tid) = Tid::new(number) else {
        unreachable!()
    };
    let start = (piece.offset() - u64::from(off)) as usize;
    let part = &bytes[start..start + piece.len as usize];
    Ok(ObjOp {
        tid,
        obj: Obj {
            ino: file,
            index: piece.index,
        },
        off: piece.obj_off,
        bytes: Bytes::from_slice(alloc, part)?,
        ctx: context.copy()?,
    })
}
