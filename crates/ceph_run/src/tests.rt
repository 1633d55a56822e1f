// What no clause says: that commands succeed with ample memory.
use crate::command::ceph_main;
use cs_io::{MemSink, MemSource};
use cs_mdslog::MemLog;
use cs_objstore::MemStore;
use cs_status::Finished;
use std::alloc::Global;
use std::test::Fail;

const RUN: &[u8] = b"ceph-script 1\nfile 100 1\n";

const RAN: &[u8] = b"ceph-journal 1\n1 file 100 1 -> made\nend 1\n";

const TRIM: &[u8] =
    b"ceph-trim 1\nwrite 0 0 6161\nsnap\nsnap\nwrite 0 0 62\nsnap\nwrite 0 1 63\nclones 0\nrmsnap 3\ntrim\nclones 0\nread 0 2 0 2\nread 0 3 0 2\nrmsnap 2\ntrim\nread 0 1 0 2\nread 0 head 0 2\nwrite 0 0 64\nclones 0\ntrim\n";

const TRIMMED: &[u8] =
    b"ceph-trim-journal 1\n1 write 0 0 6161 -> wrote 1\n2 snap -> snap 1\n3 snap -> snap 2\n4 write 0 0 62 -> wrote 2\n5 snap -> snap 3\n6 write 0 1 63 -> wrote 3\n7 clones 0 -> clones 2\n8 rmsnap 3 -> removed 3 4\n9 trim -> trimmed 1\n10 clones 0 -> clones 1\n11 read 0 2 0 2 -> bytes 6161\n12 read 0 3 0 2 -> gone\n13 rmsnap 2 -> removed 2 5\n14 trim -> trimmed 0\n15 read 0 1 0 2 -> bytes 6161\n16 read 0 head 0 2 -> bytes 6263\n17 write 0 0 64 -> wrote 4\n18 clones 0 -> clones 2\n19 trim -> trimmed 1\nend 19\n";

const USAGE: &[u8] = b"ceph-fault usage\n";

// The status of the program's call with these words, and what the sink took.
fn called(alloc: Global, words: &[&str], input: &[u8]) -> Result<(u8, MemSink), Fail> {
    let mut owned = Vec::new(alloc);
    for word in words {
        owned.push(String::from_str(alloc, word)?)?;
    }
    let mut source = MemSource::new(alloc, input)?;
    let mut sink = MemSink::new(alloc);
    let Finished {
        status,
        store: _,
        log: _,
    } = ceph_main(
        &(),
        alloc,
        owned.as_slice(),
        &mut source,
        &mut sink,
        MemStore::new(alloc),
        MemLog::new(alloc),
    );
    Ok((status, sink))
}

#[test]
fn each_command_has_its_word(rt: HostRuntime) -> Result<(), Fail> {
    let (status, sink) = called(rt.alloc(), &["run"], RUN)?;
    assert_eq!(rt; status, 0);
    assert_eq!(rt; sink.bytes(), RAN);
    let (status, sink) = called(rt.alloc(), &["trim"], TRIM)?;
    assert_eq!(rt; status, 0);
    assert_eq!(rt; sink.bytes(), TRIMMED);
    Ok(())
}

#[test]
fn faulty_words_are_told(rt: HostRuntime) -> Result<(), Fail> {
    let (status, sink) = called(rt.alloc(), &[], TRIM)?;
    assert_eq!(rt; status, 1);
    assert_eq!(rt; sink.bytes(), USAGE);
    let (status, sink) = called(rt.alloc(), &["trim", "7"], TRIM)?;
    assert_eq!(rt; status, 1);
    assert_eq!(rt; sink.bytes(), USAGE);
    let (status, sink) = called(rt.alloc(), &["trim", "--pages", "1"], TRIM)?;
    assert_eq!(rt; status, 1);
    assert_eq!(rt; sink.bytes(), USAGE);
    Ok(())
}
