// Fields written behind bytes.
ghost use Rattle.std.specs.Prelude.{◌≡◌, ◌≤◌, ◌<◌, ◌^◌, ◌++◌, length, true, OnErr, OnOk};
ghost use Rattle.cs_ids.specs.Names.{is_name};
ghost use Rattle.cs_codec.specs.Fields.{flag_bytes, is_in, list_bytes, name_bytes, number_bytes, optional_bytes};

use crate::Field;
use byteorder::{ByteOrder, LittleEndian};
use cs_ids::{Bytes, Ino, Memory, Name, Seq, Snap, Tid};

/// Adds the number in `width` bytes, 1 to 8, the lowest first; it has to fit into them. After `Memory`
/// the bytes are as before.
#[tactic(auto, unfolding(crate::specs::Fields::number_bytes))]
pub fn put_number(out: &mut Bytes, width: usize, value: u64) -> Result<(), Memory>
    requires least { 1 ≤ width }
    requires most { width ≤ 8 }
    requires fits { value < 256 ^ width }
    ensures ok { OnOk result (out.new ≡ out.old ++ number_bytes width value) }
    ensures err { OnErr result (out.new ≡ out.old) }
{
    let mut field = [0; 8];
    LittleEndian::write_uint(&mut field, value, width);
    out.append(&field[..width])
}

/// Adds the inode in eight bytes. After `Memory` the bytes are as before.
pub fn put_ino(out: &mut Bytes, ino: Ino) -> Result<(), Memory>
    ensures ok { OnOk result (out.new ≡ out.old ++ number_bytes 8 ino) }
    ensures err { OnErr result (out.new ≡ out.old) }
    ensures range { is_in 1 99999 ino ≡ true }
{
    put_number(out, 8, ino.get())
}

/// Adds the inode in eight bytes, or 0 for none. After `Memory` the bytes are as before.
pub fn put_optional_ino(out: &mut Bytes, ino: Option<Ino>) -> Result<(), Memory>
    ensures ok { OnOk result (out.new ≡ out.old ++ optional_bytes ino) }
    ensures err { OnErr result (out.new ≡ out.old) }
{
    match ino {
        None => put_number(out, 8, 0),
        Some(ino) => put_ino(out, ino),
    }
}

/// Adds the number of an operation, a flush or a request in eight bytes. After `Memory` the bytes are
/// as before.
pub fn put_tid(out: &mut Bytes, tid: Tid) -> Result<(), Memory>
    ensures ok { OnOk result (out.new ≡ out.old ++ number_bytes 8 tid) }
    ensures err { OnErr result (out.new ≡ out.old) }
    ensures range { is_in 1 99999 tid ≡ true }
{
    put_number(out, 8, tid.get())
}

/// Adds the number of a snapshot or of a removal in eight bytes. After `Memory` the bytes are as
/// before.
pub fn put_snap(out: &mut Bytes, snap: Snap) -> Result<(), Memory>
    ensures ok { OnOk result (out.new ≡ out.old ++ number_bytes 8 snap) }
    ensures err { OnErr result (out.new ≡ out.old) }
    ensures range { is_in 0 99999 snap ≡ true }
{
    put_number(out, 8, snap.get())
}

/// Adds the number of a snapshot context in eight bytes. After `Memory` the bytes are as before.
pub fn put_seq(out: &mut Bytes, seq: Seq) -> Result<(), Memory>
    ensures ok { OnOk result (out.new ≡ out.old ++ number_bytes 8 seq) }
    ensures err { OnErr result (out.new ≡ out.old) }
    ensures range { is_in 0 99999 seq ≡ true }
{
    put_number(out, 8, seq.get())
}

/// Adds the flag in one byte, 1 or 0. After `Memory` the bytes are as before.
pub fn put_flag(out: &mut Bytes, flag: bool) -> Result<(), Memory>
    ensures ok { OnOk result (out.new ≡ out.old ++ flag_bytes flag) }
    ensures err { OnErr result (out.new ≡ out.old) }
{
    put_number(out, 1, if flag { 1 } else { 0 })
}

/// Adds the name, 1 to 32 bytes, behind a byte of its length. After `Memory` the bytes are as before.
pub fn put_name(out: &mut Bytes, name: &Name) -> Result<(), Memory>
    ensures ok { OnOk result (out.new ≡ out.old ++ name_bytes name.now) }
    ensures err { OnErr result (out.new ≡ out.old) }
    ensures name { is_name name.now ≡ true }
{
    let bytes = name.as_slice();
    let mut field = [0; 33];
    field[0] = bytes.len() as u8;
    field[1..=bytes.len()].copy_from_slice(bytes);
    out.append(&field[..=bytes.len()])
}

/// Adds the items, 65,535 at most, behind two bytes of their count. After `Memory` nothing is said of the
/// bytes.
pub fn put_list<T: Field>(out: &mut Bytes, items: &[T]) -> Result<(), Memory>
    requires { length items.now ≤ 65535 }
    ensures { OnOk result (out.new ≡ out.old ++ list_bytes T.bytes items.now) }
{
    put_number(out, 2, items.len() as u64)?;
    for item in items {
        item.put(out)?;
    }
    Ok(())
}
