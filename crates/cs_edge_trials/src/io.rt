// Each call that takes memory, with ample memory, also the plan of a faulty form; and the edge over std's
// readers and writers.
use cs_ids::Failed;
use cs_io::{FaultySink, FaultySource, ReadAll, StdSink, StdSource, read_all, write_all};
use std::test::Fail;

#[test]
fn bytes_come_and_go_whole(rt: HostRuntime) -> Result<(), Fail> {
    let mut source = FaultySource::new(rt.alloc(), b"abc", &[9])?;
    let ReadAll::All(all) = read_all(rt.alloc(), &mut source, 3)? else {
        return Ok(assert!(rt; false, "three bytes fit"));
    };
    let mut sink = FaultySink::new(rt.alloc(), &[2])?;
    assert_eq!(rt; write_all(&mut sink, all.as_slice()), Ok(()));
    assert_eq!(rt; write_all(&mut sink, b"d"), Err(Failed));
    assert_eq!(rt; sink.bytes(), b"abc".as_slice());

    let mut source = StdSource::new(b"abc".as_slice());
    assert!(rt; matches!(read_all(rt.alloc(), &mut source, 2)?, ReadAll::TooLong));
    let mut room = [0; 2];
    let written = write_all(&mut StdSink::new(room.as_mut_slice()), b"abc");
    assert_eq!(rt; written, Err(Failed));
    assert_eq!(rt; room, *b"ab");
    Ok(())
}
