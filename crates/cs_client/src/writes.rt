// The callers' writes and reads.
ghost use Rattle.std.specs.Prelude.{◌≡◌, ℕ, ◌+◌, ◌-◌, ◌<◌, ◌≤◌, true, false, length, min, nat_lt, take, IfOk, OnErr, IsErrOf};
ghost use Rattle.std.specs.BTreeMap.{get};
ghost use Rattle.std.specs.Ordering.{nat_cmp};
ghost use Rattle.cs_inode.specs.Said.{shown_count};
ghost use Rattle.cs_laws.specs.Answers.{answer_write_on, bytes_from};
ghost use Rattle.cs_laws.specs.Devices.{FaultsOf};
ghost use Rattle.cs_laws.specs.Fits.{greatest_end, is_shown, is_write};
ghost use Rattle.cs_laws.specs.References.{named};
ghost use Rattle.cs_objstore.specs.Files.{AppliesNew, with_new};
ghost use Rattle.cs_client.specs.Answers.{head_byte, read_answer};
ghost use Rattle.cs_client.specs.Calls.{read_calls, write_calls, written_operations};
ghost use Rattle.cs_client.specs.Rows.{written_row};
ghost use Rattle.cs_client.specs.Views.{HaveTables, KeepsTables, RowsAfter, SamePlaces};

use crate::file::ClientFile;
use crate::references::find;
use cs_bits::Caps;
use cs_ids::{Bytes, Caller, Ino, Tid};
use cs_inode::{Inode, WriteStep};
use cs_laws::{Answer, At, RefName, StepFault};
use cs_objstore::{ObjStore, apply_all, read_file, zeros};
use cs_refs::Refs;
use std::alloc::Global;
use std::collections::BTreeMap;

/// Writes bytes to the file of a reference, under the context that the file had when the reference
/// began: one operation for each object that they touch, in rising order.
pub fn write<O: ObjStore>(
    files: &mut BTreeMap<Ino, ClientFile>,
    operations: &mut u64,
    clock: u64,
    refs: &Refs,
    store: &mut O,
    caller: Caller,
    name: RefName,
    off: u32,
    bytes: &Bytes,
) -> Result<Answer, StepFault>
    requires tables { HaveTables files.old refs.now.live }
    requires fits { is_write off bytes.now ≡ true }
    requires number { operations.old < 99998 }
    ensures answer { IfOk result
        (λ a. a ≡ answer_write_on (named caller name refs.now.live) off (length bytes.now)) }
    ensures rows { IfOk result (λ a. RowsAfter
        (written_row (named caller name refs.now.live) (off + length bytes.now) clock a) files.old files.new) }
    ensures drawn { IfOk result (λ a. operations.new ≡ operations.old
        + length (written_operations (named caller name refs.now.live) off bytes.now a operations.old
        files.old)) }
    ensures tables { KeepsTables files.old files.new }
    ensures places { SamePlaces files.old files.new }
    ensures stored { IfOk result (λ a. O.ops store.new
        ≡ with_new (written_operations (named caller name refs.now.live) off bytes.now a operations.old
        files.old) (O.ops store.old)) }
    ensures front { OnErr result (AppliesNew (written_operations (named caller name refs.now.live) off bytes.now
        (answer_write_on (named caller name refs.now.live) off (length bytes.now)) operations.old files.old)
        (O.ops store.old) (O.ops store.new)) }
    ensures quiet { write_calls (answer_write_on (named caller name refs.now.live) off (length bytes.now))
        ≡ false → store.new ≡ store.old }
    ensures faults { FaultsOf StepFault.Store
        (write_calls (answer_write_on (named caller name refs.now.live) off (length bytes.now)))
        (O.faults store.old) (O.faults store.new) result }
    ensures unlogged { IsErrOf result StepFault.Log → ⊥ }
{
    let Some(live) = find(refs, caller, name) else {
        return Ok(Answer::Unknown);
    };
    if !live.bits.has_write() {
        return Ok(Answer::NoBit);
    }
    let end = off + bytes.as_slice().len() as u32;
    if live.end < end {
        return Ok(Answer::Past);
    }
    let tid = Tid::after(*operations);
    let Some(row) = files.get_mut(&live.file) else {
        unreachable!()
    };
    let WriteStep::Direct(ops) = row
        .inode
        .write(false, off, bytes.as_slice(), clock, 0, tid)?;
    apply_all(store, ops.as_slice())?;
    *operations += ops.len() as u64;
    Ok(Answer::Wrote)
}

/// Reads bytes of the file of a reference, as far as its size goes: those that the object store has.
pub fn read<O: ObjStore>(
    alloc: Global,
    files: &BTreeMap<Ino, ClientFile>,
    refs: &Refs,
    store: &mut O,
    caller: Caller,
    name: RefName,
    off: u32,
    len: u32,
) -> Result<Answer, StepFault>
    requires tables { HaveTables files.now refs.now.live }
    requires fits { is_shown off len ≡ true }
    ensures answer { IfOk result (λ a. a
        ≡ read_answer (named caller name refs.now.live) (head_byte (O.ops store.old)) off len files.now) }
    ensures kept { O.ops store.new ≡ O.ops store.old }
    ensures quiet { read_calls (read_answer (named caller name refs.now.live) (head_byte (O.ops store.old))
        off len files.now) ≡ false
        → store.new ≡ store.old }
    ensures faults { FaultsOf StepFault.Store
        (read_calls (read_answer (named caller name refs.now.live) (head_byte (O.ops store.old)) off len
        files.now))
        (O.faults store.old) (O.faults store.new) result }
    ensures unlogged { IsErrOf result StepFault.Log → ⊥ }
{
    let Some(live) = find(refs, caller, name) else {
        return Ok(Answer::Unknown);
    };
    if !live.bits.covers(Caps::FILE_READ) {
        return Ok(Answer::NoBit);
    }
    let Some(row) = files.get(&live.file) else {
        unreachable!()
    };
    let bytes = read_inode(alloc, &row.inode, store, live.file, off, len)?;
    Ok(Answer::Bytes(bytes))
}

// The bytes of a file as far as its size goes.
fn read_inode<O: ObjStore>(
    alloc: Global,
    inode: &Inode,
    store: &mut O,
    file: Ino,
    off: u32,
    len: u32,
) -> Result<Bytes, StepFault>
    requires fits { is_shown off len ≡ true }
    requires size { inode.now.meta.size ≤ greatest_end }
    ensures bytes { IfOk result
        (λ b. b ≡ bytes_from (head_byte (O.ops store.old) file) off (shown_count inode.now.meta.size off len)) }
    ensures kept { O.ops store.new ≡ O.ops store.old }
    ensures quiet { nat_lt 0 (shown_count inode.now.meta.size off len) ≡ false → store.new ≡ store.old }
    ensures faults { FaultsOf StepFault.Store (nat_lt 0 (shown_count inode.now.meta.size off len))
        (O.faults store.old) (O.faults store.new) result }
    ensures unlogged { IsErrOf result StepFault.Log → ⊥ }
{
    let mut bytes = Bytes::new(alloc);
    let count = shown_count(inode.size(), off, len);
    if count == 0 {
        return Ok(bytes);
    }
    let base = read_base(alloc, store, file, off, len, count)?;
    inode.read(off, len, base.as_slice(), &mut bytes)?;
    Ok(bytes)
}

// What the store has of a file from an offset on, in as many bytes as `len` and the greatest size of a file
// allow. `count` bytes are left of the file's size, and past them nothing was written.
fn read_base<O: ObjStore>(
    alloc: Global,
    store: &mut O,
    file: Ino,
    off: u32,
    len: u32,
    count: u32,
) -> Result<Bytes, StepFault>
    requires few { len ≤ 4096 }
    requires upto { count ≤ len }
    requires within { off + count ≤ greatest_end }
    ensures length { IfOk result (λ b. length b ≡ min len (greatest_end - off)) }
    ensures front { IfOk result (λ b. take count b ≡ bytes_from (head_byte (O.ops store.old) file) off count) }
    ensures kept { O.ops store.new ≡ O.ops store.old }
    ensures faults { FaultsOf StepFault.Store true (O.faults store.old) (O.faults store.new) result }
    ensures unlogged { IsErrOf result StepFault.Log → ⊥ }
{
    let mut base = read_file(alloc, store, file, At::Head, off, count)?;
    let most = len.min(1_048_576 - off);
    let rest = zeros(alloc, most - count)?;
    base.append(rest.as_slice())?;
    Ok(base)
}

// How many of the bytes that are asked for a file of this size has.
fn shown_count(size: u64, off: u32, len: u32) -> u32
    ensures { result ≡ shown_count size off len }
{
    u64::from(len).min(size.saturating_sub(u64::from(off))) as u32
}
