// Each call of a log that takes memory, with ample memory; which calls of the faulty form fail; and a record of each
// kind, written and read.
ghost use Rattle.std.specs.Prelude.{◌≡◌, ◌+◌, length, IfOk};

use cs_ids::{Bytes, Failed, FileMeta, Ino, Name, Seq, Snap, Tid};
use cs_laws::{OpAnswer, Record, RecordBody, ReqOp};
use cs_mdslog::{FaultyLog, LogFault, MdsLog, MemLog, decode_record, encode_record};
use std::alloc::Global;
use std::test::Fail;

// Two records through the bound, the first of them durable.
fn write_both<L: MdsLog>(log: &mut L) -> Result<(), Fail>
    ensures records { IfOk result (λ _. length (L.records log.new) ≡ length (L.records log.old) + 2) }
    ensures durable { IfOk result (λ _. L.durable log.new ≡ length (L.records log.old) + 1) }
{
    log.append(b"first")?;
    log.sync()?;
    log.append(b"second")?;
    Ok(())
}

#[test]
fn records_are_fetched_and_cut(rt: HostRuntime) -> Result<(), Fail> {
    let mut log = MemLog::new(rt.alloc());
    write_both(&mut log)?;
    assert_eq!(rt; (log.len(), log.durable()), (2, 1));
    let mut out = vec![in rt.alloc(); b'.'; 3]?;
    log.fetch(1, &mut out)?;
    assert_eq!(rt; out.as_slice(), b"second".as_slice());
    log.fetch(0, &mut out)?;
    assert_eq!(rt; out.as_slice(), b"first".as_slice());
    log.cut(1)?;
    assert_eq!(rt; (log.len(), log.durable()), (1, 1));
    Ok(())
}

#[test]
fn the_listed_calls_fail(rt: HostRuntime) -> Result<(), Fail> {
    let mut log = FaultyLog::new(rt.alloc(), &[2, 5])?;
    assert_eq!(rt; log.append(b"first"), Ok(()));
    assert_eq!(rt; log.sync(), Err(Failed));
    assert_eq!(rt; (log.len(), log.durable()), (1, 0));
    assert_eq!(rt; log.sync(), Ok(()));
    assert_eq!(rt; log.append(b"second"), Ok(()));
    assert_eq!(rt; log.append(b"third"), Err(LogFault::Failed));
    assert_eq!(rt; (log.records().len(), log.durable()), (2, 1));
    Ok(())
}

// The bytes of the record, which are read and written once more.
fn written(alloc: Global, body: RecordBody) -> Result<Bytes, Fail> {
    let mut bytes = Bytes::new(alloc);
    encode_record(&Record { body }, &mut bytes)?;
    let again = decode_record(alloc, bytes.as_slice())?.ok_or("no record")?;
    bytes.clear();
    encode_record(&again, &mut bytes)?;
    Ok(bytes)
}

#[test]
fn a_request_is_written_and_read(rt: HostRuntime) -> Result<(), Fail> {
    let alloc = rt.alloc();
    let bytes = written(
        alloc,
        RecordBody::Request {
            tid: Tid::new(1).ok_or("no number")?,
            op: ReqOp::Rename {
                dir: Ino::new(258).ok_or("no inode")?,
                name: Name::from_slice(alloc, b"a")?,
                new_name: Name::from_slice(alloc, b"b-2")?,
            },
            answer: OpAnswer::Moved,
        },
    )?;
    assert_eq!(rt;
        bytes.as_slice(),
        b"\x01\x01\x01\0\0\0\0\0\0\0\x04\x02\x01\0\0\0\0\0\0\x01a\x03b-2\x04\0\0\0\0\0\0\0\0".as_slice()
    );
    Ok(())
}

#[test]
fn a_flush_is_written_and_read(rt: HostRuntime) -> Result<(), Fail> {
    let bytes = written(
        rt.alloc(),
        RecordBody::Flush {
            snap: true,
            file: Ino::new(2).ok_or("no inode")?,
            tid: Tid::new(3).ok_or("no number")?,
            follows: Seq::new(4).ok_or("no number")?,
            meta: FileMeta {
                size: 5,
                mtime: 256,
                mode: 0o644,
            },
        },
    )?;
    assert_eq!(rt;
        bytes.as_slice(),
        b"\x01\x02\x01\x02\0\0\0\0\0\0\0\x03\0\0\0\0\0\0\0\x04\0\0\0\0\0\0\0\x05\0\0\0\0\0\0\0\0\x01\0\0\0\0\0\0\xa4\x01".as_slice()
    );
    Ok(())
}

#[test]
fn a_snapshot_and_a_removal_are_written_and_read(rt: HostRuntime) -> Result<(), Fail> {
    let alloc = rt.alloc();
    let snap = Snap::new(1).ok_or("no snapshot")?;
    let taken = written(
        alloc,
        RecordBody::Snap {
            number: snap,
            dir: Ino::new(1).ok_or("no inode")?,
            name: Name::from_slice(alloc, b"monday")?,
        },
    )?;
    assert_eq!(rt;
        taken.as_slice(),
        b"\x01\x03\x01\0\0\0\0\0\0\0\x01\0\0\0\0\0\0\0\x06monday".as_slice()
    );
    let number = Snap::new(2).ok_or("no snapshot")?;
    let removed = written(alloc, RecordBody::Removal { snap, number })?;
    assert_eq!(rt;
        removed.as_slice(),
        b"\x01\x04\x01\0\0\0\0\0\0\0\x02\0\0\0\0\0\0\0".as_slice()
    );
    Ok(())
}
