// Trims. What no clause says: that calls succeed with ample memory. And which call fails where a device does.
use cs_ids::Memory;
use cs_io::{FaultySink, FaultySource, MemSink, MemSource, Sink, Source};
use cs_mdslog::MemLog;
use cs_objstore::MemStore;
use cs_status::Finished;
use cs_trim_run::serve_trim;
use std::alloc::Global;
use std::test::Fail;

const TRIMMED_BETWEEN: &[u8] =
    b"ceph-trim 1\nwrite 0 0 6161\nsnap\nsnap\nwrite 0 0 62\nsnap\nwrite 0 1 63\nclones 0\nrmsnap 3\ntrim\nclones 0\nread 0 2 0 2\nread 0 3 0 2\nrmsnap 2\ntrim\nread 0 1 0 2\nread 0 head 0 2\nwrite 0 0 64\nclones 0\ntrim\n";

const BETWEEN: &[u8] =
    b"ceph-trim-journal 1\n1 write 0 0 6161 -> wrote 1\n2 snap -> snap 1\n3 snap -> snap 2\n4 write 0 0 62 -> wrote 2\n5 snap -> snap 3\n6 write 0 1 63 -> wrote 3\n7 clones 0 -> clones 2\n8 rmsnap 3 -> removed 3 4\n9 trim -> trimmed 1\n10 clones 0 -> clones 1\n11 read 0 2 0 2 -> bytes 6161\n12 read 0 3 0 2 -> gone\n13 rmsnap 2 -> removed 2 5\n14 trim -> trimmed 0\n15 read 0 1 0 2 -> bytes 6161\n16 read 0 head 0 2 -> bytes 6263\n17 write 0 0 64 -> wrote 4\n18 clones 0 -> clones 2\n19 trim -> trimmed 1\nend 19\n";

const REFUSED_SNAPSHOTS: &[u8] =
    b"ceph-trim 1\nread 5 head 0 2\nsnap\nwrite 5 0 61\nread 5 1 0 1\nclones 5\nrmsnap 2\nrmsnap 1\nrmsnap 2\nrmsnap 1\ntrim\n";

const REFUSED: &[u8] =
    b"ceph-trim-journal 1\n1 read 5 head 0 2 -> bytes 0000\n2 snap -> snap 1\n3 write 5 0 61 -> wrote 1\n4 read 5 1 0 1 -> bytes 00\n5 clones 5 -> clones 0\n6 rmsnap 2 -> nosnap\n7 rmsnap 1 -> removed 1 2\n8 rmsnap 2 -> nosnap\n9 rmsnap 1 -> gone\n10 trim -> trimmed 0\nend 10\n";

// The write goes over the end of a block, and leaves what the clone shares with the head.
const OVER_A_BLOCK: &[u8] =
    b"ceph-trim 1\nwrite 63 4092 6161616161616161\nsnap\nwrite 63 4094 62636465\nread 63 head 4093 6\nread 63 1 4093 6\nread 63 head 65534 2\n";

const OVER: &[u8] =
    b"ceph-trim-journal 1\n1 write 63 4092 6161616161616161 -> wrote 1\n2 snap -> snap 1\n3 write 63 4094 62636465 -> wrote 2\n4 read 63 head 4093 6 -> bytes 616263646561\n5 read 63 1 4093 6 -> bytes 616161616161\n6 read 63 head 65534 2 -> bytes 0000\nend 6\n";

fn status<S: Source, K: Sink>(alloc: Global, source: &mut S, sink: &mut K) -> u8 {
    let Finished {
        status,
        store: _,
        log: _,
    } = serve_trim(
        alloc,
        source,
        sink,
        MemStore::new(alloc),
        MemLog::new(alloc),
    );
    status
}

// The status of a trim, and what the sink took.
fn trim(alloc: Global, input: &[u8]) -> Result<(u8, MemSink), Memory> {
    let mut source = MemSource::new(alloc, input)?;
    let mut sink = MemSink::new(alloc);
    let status = status(alloc, &mut source, &mut sink);
    Ok((status, sink))
}

#[test]
fn trims_write_their_journals(rt: HostRuntime) -> Result<(), Fail> {
    for (input, journal) in [
        (TRIMMED_BETWEEN, BETWEEN),
        (REFUSED_SNAPSHOTS, REFUSED),
        (OVER_A_BLOCK, OVER),
    ] {
        let (status, sink) = trim(rt.alloc(), input)?;
        assert_eq!(rt; status, 0);
        assert_eq!(rt; sink.bytes(), journal);
    }
    Ok(())
}

#[test]
fn bad_lines_are_told(rt: HostRuntime) -> Result<(), Fail> {
    let mut long = Vec::new(rt.alloc());
    long.extend_from_slice(b"ceph-trim 1\n#")?;
    for _ in 0..4_096 {
        long.push(b'#')?;
    }
    let rows: [(&[u8], &[u8]); 4] = [
        (b"", b"ceph-fault script 1 header\n"),
        (b"ceph-script 1\n", b"ceph-fault script 1 header\n"),
        (
            b"ceph-trim 1\n\n# two lines are skipped\nrmsnap 0\n",
            b"ceph-fault script 4 range\n",
        ),
        (long.as_slice(), b"ceph-fault script 2 long\n"),
    ];
    for (input, told) in rows {
        let (status, sink) = trim(rt.alloc(), input)?;
        assert_eq!(rt; status, 2);
        assert_eq!(rt; sink.bytes(), told);
    }
    Ok(())
}

// The bytes of a script of so many events.
fn script_of(alloc: Global, events: usize) -> Result<Vec<u8>, Fail> {
    let mut script = Vec::new(alloc);
    script.extend_from_slice(b"ceph-trim 1\n")?;
    for _ in 0..events {
        script.extend_from_slice(b"trim\n")?;
    }
    Ok(script)
}

#[test]
fn the_limits_are_told(rt: HostRuntime) -> Result<(), Fail> {
    let most = script_of(rt.alloc(), 10_000)?;
    let (status, _) = trim(rt.alloc(), most.as_slice())?;
    assert_eq!(rt; status, 0);
    let more = script_of(rt.alloc(), 10_001)?;
    let (status, sink) = trim(rt.alloc(), more.as_slice())?;
    assert_eq!(rt; status, 3);
    assert_eq!(rt; sink.bytes(), b"ceph-fault limit events\n".as_slice());
    let long = vec![in rt.alloc(); b'#'; 1_048_577]?;
    let (status, sink) = trim(rt.alloc(), long.as_slice())?;
    assert_eq!(rt; status, 3);
    assert_eq!(rt; sink.bytes(), b"ceph-fault limit bytes\n".as_slice());
    Ok(())
}

// What a trim ends with whose source and sink fail at the listed calls.
fn trim_faulty(
    alloc: Global,
    source_fails: &[u32],
    sink_fails: &[u32],
) -> Result<(u8, FaultySink), Memory> {
    let mut source = FaultySource::new(alloc, REFUSED_SNAPSHOTS, source_fails)?;
    let mut sink = FaultySink::new(alloc, sink_fails)?;
    let status = status(alloc, &mut source, &mut sink);
    Ok((status, sink))
}

#[test]
fn a_fault_of_the_source_takes_nothing(rt: HostRuntime) -> Result<(), Fail> {
    for call in 1..4u32 {
        let (status, sink) = trim_faulty(rt.alloc(), &[call], &[])?;
        let is_read = call > 2;
        assert_eq!(rt; status, if is_read { 0 } else { 4 });
        assert_eq!(rt; sink.bytes().is_empty(), !is_read);
    }
    Ok(())
}

#[test]
fn a_fault_of_the_sink_leaves_whole_lines(rt: HostRuntime) -> Result<(), Fail> {
    for call in 1..14u32 {
        let (status, sink) = trim_faulty(rt.alloc(), &[], &[call])?;
        let taken = sink.bytes();
        assert_eq!(rt; status, if call > 12 { 0 } else { 5 });
        assert!(rt; REFUSED.starts_with(taken));
        let lines = taken.iter().filter(|c| **c == b'\n').count();
        assert_eq!(rt; lines as u32, call.min(13) - 1);
    }
    Ok(())
}
