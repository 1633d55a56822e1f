// Records read from bytes.
ghost use Rattle.std.specs.Prelude.{◌≡◌, IfOk};
ghost use Rattle.cs_codec.specs.Codecs.{IsSpelled, IsUnspelled};
ghost use Rattle.cs_codec.specs.Fields.{GivesField, Reads, whole};
ghost use Rattle.cs_laws.specs.Spellings.{record_bytes, record_spelled};
ghost use Rattle.cs_mdslog.specs.Readings.{body_at, counted_at, flush_at, meta_at, op_at, record_at, removal_at, reply_at, request_at, snap_at, without_ino};

use cs_codec::Reader;
use cs_ids::{FileMeta, Memory, Snap};
use cs_laws::{OpAnswer, Record, RecordBody, ReqOp};
use std::alloc::Global;

/// The record that the bytes spell, or None exactly where they spell none.
pub fn decode_record(alloc: Global, bytes: &[u8]) -> Result<Option<Record>, Memory>
    ensures some { IfOk result (λ rec. IsSpelled record_bytes record_spelled bytes.now rec) }
    ensures none { IfOk result (λ rec. IsUnspelled record_bytes record_spelled bytes.now rec) }
{
    read_whole(alloc, bytes)
}

// What reading all of the bytes gives.
fn read_whole(alloc: Global, bytes: &[u8]) -> Result<Option<Record>, Memory>
    ensures { IfOk result (λ rec. rec ≡ whole (record_at bytes.now)) }
{
    let mut reader = Reader::new(bytes);
    let Some(rec) = read_record(&mut reader, alloc)? else {
        return Ok(None);
    };
    if !reader.is_done() {
        return Ok(None);
    }
    Ok(Some(rec))
}

#[tactic(auto, unfolding(crate::specs::Readings::record_at))]
fn read_record(reader: &mut Reader<'_>, alloc: Global) -> Result<Option<Record>, Memory>
    ensures { GivesField result reader.new (record_at reader.old) }
{
    let Some(_version) = reader.number(1, 1, 1) else {
        return Ok(None);
    };
    let Some(body) = read_body(reader, alloc)? else {
        return Ok(None);
    };
    Ok(Some(Record { body }))
}

#[tactic(auto, unfolding(crate::specs::Readings::body_at))]
fn read_body(reader: &mut Reader<'_>, alloc: Global) -> Result<Option<RecordBody>, Memory>
    ensures { GivesField result reader.new (body_at reader.old) }
{
    let Some(kind) = reader.number(1, 1, 4) else {
        return Ok(None);
    };
    match kind {
        1 => read_request(reader, alloc),
        2 => Ok(read_flush(reader)),
        3 => read_snap(reader, alloc),
        _ => Ok(read_removal(reader)),
    }
}

#[tactic(auto, unfolding(crate::specs::Readings::request_at))]
fn read_request(reader: &mut Reader<'_>, alloc: Global) -> Result<Option<RecordBody>, Memory>
    ensures { GivesField result reader.new (request_at reader.old) }
{
    let Some(tid) = reader.tid() else {
        return Ok(None);
    };
    let Some(op) = read_op(reader, alloc)? else {
        return Ok(None);
    };
    let Some(answer) = read_reply(reader) else {
        return Ok(None);
    };
    Ok(Some(RecordBody::Request { tid, op, answer }))
}

#[tactic(auto, unfolding(crate::specs::Readings::flush_at))]
fn read_flush(reader: &mut Reader<'_>) -> Option<RecordBody>
    ensures { Reads result reader.new (flush_at reader.old) }
{
    let snap = reader.flag()?;
    let file = reader.ino()?;
    let tid = reader.tid()?;
    let follows = reader.seq()?;
    let meta = read_meta(reader)?;
    Some(RecordBody::Flush {
        snap,
        file,
        tid,
        follows,
        meta,
    })
}

#[tactic(auto, unfolding(crate::specs::Readings::snap_at))]
fn read_snap(reader: &mut Reader<'_>, alloc: Global) -> Result<Option<RecordBody>, Memory>
    ensures { GivesField result reader.new (snap_at reader.old) }
{
    let Some(number) = read_counted_snap(reader) else {
        return Ok(None);
    };
    let Some(dir) = reader.ino() else {
        return Ok(None);
    };
    let Some(name) = reader.name(alloc)? else {
        return Ok(None);
    };
    Ok(Some(RecordBody::Snap { number, dir, name }))
}

#[tactic(auto, unfolding(crate::specs::Readings::removal_at))]
fn read_removal(reader: &mut Reader<'_>) -> Option<RecordBody>
    ensures { Reads result reader.new (removal_at reader.old) }
{
    let snap = read_counted_snap(reader)?;
    let number = read_counted_snap(reader)?;
    Some(RecordBody::Removal { snap, number })
}

#[tactic(auto, unfolding(crate::specs::Readings::op_at))]
fn read_op(reader: &mut Reader<'_>, alloc: Global) -> Result<Option<ReqOp>, Memory>
    ensures { GivesField result reader.new (op_at reader.old) }
{
    let Some(kind) = reader.number(1, 1, 5) else {
        return Ok(None);
    };
    let Some(dir) = reader.ino() else {
        return Ok(None);
    };
    let Some(name) = reader.name(alloc)? else {
        return Ok(None);
    };
    match kind {
        1 => Ok(Some(ReqOp::Mkdir { dir, name })),
        2 => Ok(Some(ReqOp::Create { dir, name })),
        3 => Ok(Some(ReqOp::Unlink { dir, name })),
        4 => {
            let Some(new_name) = reader.name(alloc)? else {
                return Ok(None);
            };
            Ok(Some(ReqOp::Rename {
                dir,
                name,
                new_name,
            }))
        }
        _ => Ok(Some(ReqOp::Lookup { dir, name })),
    }
}

#[tactic(auto, unfolding(crate::specs::Readings::reply_at))]
fn read_reply(reader: &mut Reader<'_>) -> Option<OpAnswer>
    ensures { Reads result reader.new (reply_at reader.old) }
{
    let kind = reader.number(1, 1, 8)?;
    match kind {
        1 => Some(OpAnswer::Made(reader.ino()?)),
        2 => Some(OpAnswer::Found(reader.ino()?)),
        3 => read_without_ino(reader, OpAnswer::Gone),
        4 => read_without_ino(reader, OpAnswer::Moved),
        5 => read_without_ino(reader, OpAnswer::Exists),
        6 => read_without_ino(reader, OpAnswer::Missing),
        7 => read_without_ino(reader, OpAnswer::NotEmpty),
        _ => read_without_ino(reader, OpAnswer::NotDir),
    }
}

// The answer, where 0 stands in its inode's place.
fn read_without_ino(reader: &mut Reader<'_>, reply: OpAnswer) -> Option<OpAnswer>
    ensures { Reads result reader.new (without_ino reply reader.old) }
{
    reader.number(8, 0, 0)?;
    Some(reply)
}

#[tactic(auto, unfolding(crate::specs::Readings::meta_at))]
fn read_meta(reader: &mut Reader<'_>) -> Option<FileMeta>
    ensures { Reads result reader.new (meta_at reader.old) }
{
    let size = reader.number(8, 0, 1_048_576)?;
    let mtime = reader.number(8, 0, 4_294_967_295)?;
    let mode = reader.number(2, 0, 4095)?;
    Some(FileMeta {
        size,
        mtime,
        mode: mode as u16,
    })
}

// The number of a snapshot or of a removal, which count from 1.
fn read_counted_snap(reader: &mut Reader<'_>) -> Option<Snap>
    ensures { Reads result reader.new (counted_at reader.old) }
{
    let value = reader.number(8, 1, 99_999)?;
    Snap::new(value)
}
