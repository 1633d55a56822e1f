// Each call that takes memory, with ample memory.
use cs_flush::{FlushReport, FlushReportList, Flushes, Sent};
use cs_ids::{FileMeta, Ino, Seq, Tid};
use std::test::Fail;

#[test]
fn a_flush_is_started_and_reported(rt: HostRuntime) -> Result<(), Fail> {
    let sent = Sent {
        tid: Tid::after(0),
        follows: Seq::zero(),
        meta: FileMeta {
            size: 10,
            mtime: 1,
            mode: 0o644,
        },
    };
    let mut flushes = Flushes::new(rt.alloc());
    flushes.start(sent.tid, sent.follows, sent.meta)?;
    assert_eq!(rt; flushes.unacked(), [sent].as_slice());

    let report = FlushReport {
        ino: Ino::new(7).ok_or("ino")?,
        sent,
        snap: true,
    };
    let mut reports = FlushReportList::new(rt.alloc());
    reports.push(report)?;
    assert_eq!(rt; reports.as_slice(), [report].as_slice());
    Ok(())
}
