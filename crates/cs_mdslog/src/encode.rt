// Records written as bytes.
ghost use Rattle.std.specs.Prelude.{◌≡◌, ◌++◌, ◌&&◌, true, OnErr, OnOk};
ghost use Rattle.cs_codec.specs.Fields.{name_bytes, number_bytes};
ghost use Rattle.cs_ids.specs.Names.{is_name};
ghost use Rattle.cs_laws.specs.Spellings.{body_bytes, body_fits, body_spelled, is_counted, meta_bytes, meta_fits, meta_spelled, op_bytes, op_spelled, record_bytes, record_fits, record_spelled, reply_bytes, reply_spelled};

use cs_codec::{put_flag, put_ino, put_name, put_number, put_seq, put_snap, put_tid};
use cs_ids::{Bytes, FileMeta, Ino, Memory, Name};
use cs_laws::{OpAnswer, Record, RecordBody, ReqOp};

/// Adds the bytes of the record, which `decode_record` reads where it fits. After `Memory` the bytes are as
/// before.
pub fn encode_record(rec: &Record, out: &mut Bytes) -> Result<(), Memory>
    ensures ok { OnOk result (out.new ≡ out.old ++ record_bytes rec.now) }
    ensures err { OnErr result (out.new ≡ out.old) }
    ensures spelled { OnOk result (record_fits rec.now ≡ true → record_spelled rec.now ≡ true) }
{
    let mut bytes = Bytes::new(out.allocator());
    put_number(&mut bytes, 1, 1)?;
    put_body(&mut bytes, &rec.body)?;
    out.append(bytes.as_slice())
}

// The functions below add the bytes of a part. After `Memory` they may have added a front of them.

fn put_body(out: &mut Bytes, body: &RecordBody) -> Result<(), Memory>
    ensures bytes { OnOk result (out.new ≡ out.old ++ body_bytes body.now) }
    ensures spelled { OnOk result (body_fits body.now ≡ true → body_spelled body.now ≡ true) }
{
    match body {
        RecordBody::Request { tid, op, answer } => {
            put_number(out, 1, 1)?;
            put_tid(out, *tid)?;
            put_op(out, op)?;
            put_reply(out, answer)
        }
        RecordBody::Flush {
            snap,
            file,
            tid,
            follows,
            meta,
        } => {
            put_number(out, 1, 2)?;
            put_flag(out, *snap)?;
            put_ino(out, *file)?;
            put_tid(out, *tid)?;
            put_seq(out, *follows)?;
            put_meta(out, meta)
        }
        RecordBody::Snap { number, dir, name } => {
            put_number(out, 1, 3)?;
            put_snap(out, *number)?;
            put_ino(out, *dir)?;
            put_name(out, name)
        }
        RecordBody::Removal { snap, number } => {
            put_number(out, 1, 4)?;
            put_snap(out, *snap)?;
            put_snap(out, *number)
        }
    }
}

fn put_op(out: &mut Bytes, op: &ReqOp) -> Result<(), Memory>
    ensures bytes { OnOk result (out.new ≡ out.old ++ op_bytes op.now) }
    ensures spelled { OnOk result (op_spelled op.now ≡ true) }
{
    match op {
        ReqOp::Mkdir { dir, name } => put_entry(out, 1, *dir, name),
        ReqOp::Create { dir, name } => put_entry(out, 2, *dir, name),
        ReqOp::Unlink { dir, name } => put_entry(out, 3, *dir, name),
        ReqOp::Rename {
            dir,
            name,
            new_name,
        } => {
            put_entry(out, 4, *dir, name)?;
            put_name(out, new_name)
        }
        ReqOp::Lookup { dir, name } => put_entry(out, 5, *dir, name),
    }
}

// A kind of operation, and the entry that it is about.
fn put_entry(out: &mut Bytes, kind: u8, dir: Ino, name: &Name) -> Result<(), Memory>
    ensures bytes { OnOk result (out.new ≡ out.old ++ (number_bytes 1 kind ++ (number_bytes 8 dir ++ name_bytes name.now))) }
    ensures spelled { OnOk result ((is_counted dir && is_name name.now) ≡ true) }
{
    put_number(out, 1, u64::from(kind))?;
    put_ino(out, dir)?;
    put_name(out, name)
}

fn put_reply(out: &mut Bytes, reply: &OpAnswer) -> Result<(), Memory>
    ensures bytes { OnOk result (out.new ≡ out.old ++ reply_bytes reply.now) }
    ensures spelled { OnOk result (reply_spelled reply.now ≡ true) }
{
    match reply {
        OpAnswer::Made(ino) => put_kind_and_ino(out, 1, ino.get()),
        OpAnswer::Found(ino) => put_kind_and_ino(out, 2, ino.get()),
        OpAnswer::Gone => put_kind_and_ino(out, 3, 0),
        OpAnswer::Moved => put_kind_and_ino(out, 4, 0),
        OpAnswer::Exists => put_kind_and_ino(out, 5, 0),
        OpAnswer::Missing => put_kind_and_ino(out, 6, 0),
        OpAnswer::NotEmpty => put_kind_and_ino(out, 7, 0),
        OpAnswer::NotDir => put_kind_and_ino(out, 8, 0),
    }
}

// A kind of answer, and its inode, or 0 where it has none.
fn put_kind_and_ino(out: &mut Bytes, kind: u8, ino: u64) -> Result<(), Memory>
    ensures { OnOk result (out.new ≡ out.old ++ (number_bytes 1 kind ++ number_bytes 8 ino)) }
{
    put_number(out, 1, u64::from(kind))?;
    put_number(out, 8, ino)
}

fn put_meta(out: &mut Bytes, meta: &FileMeta) -> Result<(), Memory>
    ensures bytes { OnOk result (out.new ≡ out.old ++ meta_bytes meta.now) }
    ensures spelled { OnOk result (meta_fits meta.now ≡ true → meta_spelled meta.now ≡ true) }
{
    put_number(out, 8, meta.size)?;
    put_number(out, 8, meta.mtime)?;
    put_number(out, 2, u64::from(meta.mode))
}
