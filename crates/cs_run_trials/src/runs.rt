// Runs. What no clause says: that calls succeed with ample memory, and that a world may go to another thread. And which call
// fails where a device does.
ghost use Rattle.std.specs.Prelude.{◌≡◌, []};

use cs_ids::Memory;
use cs_io::{FaultySink, FaultySource, MemSink, MemSource, Sink, Source};
use cs_mdslog::{FaultyLog, MdsLog, MemLog};
use cs_objstore::{FaultyStore, MemStore, ObjStore};
use cs_run::serve_run;
use cs_status::Finished;
use cs_world::World;
use std::alloc::Global;
use std::test::Fail;

const HOLD_THEN_ACK: &[u8] =
    b"ceph-script 1\nfile 100 1\ngrant 100 Frw 4096\ntoclient\nbegin 1 100 Fw 8\nrevoke 100 Fw\ntoclient\ncheck 100\nend 1 1\ncheck 100\ntomds\n";

const HELD: &[u8] =
    b"ceph-journal 1\n1 file 100 1 -> made\n2 grant 100 Frw 4096 -> sent 1 held Frw\n3 toclient -> cap 100 1 Frw 4096\n4 begin 1 100 Fw 8 -> ref 1\n5 revoke 100 Fw -> sent 2 held Frw\n6 toclient -> cap 100 2 Fr 4096\n7 check 100 -> hold Fw\n8 end 1 1 -> ended\n9 check 100 -> ack 2 Fr\n10 tomds -> capack 100 2 held Fr\nend 10\n";

// The second write touches two objects.
const WRITES: &[u8] =
    b"ceph-script 1\nfile 100 1\ngrant 100 Fw 1048576\ntoclient\nbegin 1 100 Fw 1048576\nwrite 1 1 0 6161\nwrite 1 1 65535 6162\nwrite 1 1 1 62\nend 1 1\n";

const WROTE: &[u8] =
    b"ceph-journal 1\n1 file 100 1 -> made\n2 grant 100 Fw 1048576 -> sent 1 held Fw\n3 toclient -> cap 100 1 Fw 1048576\n4 begin 1 100 Fw 1048576 -> ref 1\n5 write 1 1 0 6161 -> wrote\n6 write 1 1 65535 6162 -> wrote\n7 write 1 1 1 62 -> wrote\n8 end 1 1 -> ended\nend 8\n";

// The store's second call reads.
const READS: &[u8] =
    b"ceph-script 1\nfile 100 1\ngrant 100 Frw 4096\ntoclient\nbegin 1 100 Frw 8\nwrite 1 1 0 6161\nread 1 1 0 2\n";

const READ_FAILED: &[u8] =
    b"ceph-journal 1\n1 file 100 1 -> made\n2 grant 100 Frw 4096 -> sent 1 held Frw\n3 toclient -> cap 100 1 Frw 4096\n4 begin 1 100 Frw 8 -> ref 1\n5 write 1 1 0 6161 -> wrote\n";

// A cap snap lives while a writer does. The log is called first by the snapshot, and then by the commit.
const SNAPSHOT: &[u8] =
    b"ceph-script 1\nfile 100 1\ngrant 100 Frw 4096\ntoclient\nbegin 1 100 Fw 4\nwrite 1 1 0 6161\nsnap 1 a\ncommit\ntoclient\nbegin 2 100 Fw 4\nwrite 1 1 2 6262\nshow 100 1 0 4\nend 1 1\nflushsnaps 100\ntomds\ncommit\ntoclient\nshow 100 1 0 4\n";

const BEFORE_SNAPSHOT: &[u8] =
    b"ceph-journal 1\n1 file 100 1 -> made\n2 grant 100 Frw 4096 -> sent 1 held Frw\n3 toclient -> cap 100 1 Frw 4096\n4 begin 1 100 Fw 4 -> ref 1\n5 write 1 1 0 6161 -> wrote\n";

const BEFORE_COMMIT: &[u8] =
    b"ceph-journal 1\n1 file 100 1 -> made\n2 grant 100 Frw 4096 -> sent 1 held Frw\n3 toclient -> cap 100 1 Frw 4096\n4 begin 1 100 Fw 4 -> ref 1\n5 write 1 1 0 6161 -> wrote\n6 snap 1 a -> snap 1\n";

// The status of a run over a store and a log, these, and what the sink took.
fn run_over<O: ObjStore, L: MdsLog>(
    alloc: Global,
    input: &[u8],
    store: O,
    log: L,
) -> Result<(u8, O, L, MemSink), Memory>
    requires store { O.ops store ≡ [] }
    requires log { L.records log ≡ [] }
    requires durable { L.durable log ≡ 0 }
{
    let mut source = MemSource::new(alloc, input)?;
    let mut sink = MemSink::new(alloc);
    let Finished { status, store, log } = serve_run(alloc, 256, &mut source, &mut sink, store, log);
    Ok((status, store, log, sink))
}

fn status<S: Source, K: Sink>(alloc: Global, source: &mut S, sink: &mut K) -> u8 {
    let Finished {
        status,
        store: _,
        log: _,
    } = serve_run(
        alloc,
        256,
        source,
        sink,
        MemStore::new(alloc),
        MemLog::new(alloc),
    );
    status
}

#[test]
fn ample_memory_gives_answers(rt: HostRuntime) -> Result<(), Fail> {
    let alloc = rt.alloc();
    let (status, _, _, sink) = run_over(
        alloc,
        HOLD_THEN_ACK,
        MemStore::new(alloc),
        MemLog::new(alloc),
    )?;
    assert_eq!(rt; status, 0);
    assert_eq!(rt; sink.bytes(), HELD);
    Ok(())
}

// What a run ends with whose source and sink fail at the listed calls.
fn run_faulty(
    alloc: Global,
    source_fails: &[u32],
    sink_fails: &[u32],
) -> Result<(u8, FaultySink), Memory> {
    let mut source = FaultySource::new(alloc, HOLD_THEN_ACK, source_fails)?;
    let mut sink = FaultySink::new(alloc, sink_fails)?;
    let status = status(alloc, &mut source, &mut sink);
    Ok((status, sink))
}

#[test]
fn a_fault_of_the_source_takes_nothing(rt: HostRuntime) -> Result<(), Fail> {
    for call in 1..4u32 {
        let (status, sink) = run_faulty(rt.alloc(), &[call], &[])?;
        let is_read = call > 2;
        assert_eq!(rt; status, if is_read { 0 } else { 4 });
        assert_eq!(rt; sink.bytes().is_empty(), !is_read);
    }
    Ok(())
}

#[test]
fn a_fault_of_the_sink_leaves_whole_lines(rt: HostRuntime) -> Result<(), Fail> {
    for call in 1..14u32 {
        let (status, sink) = run_faulty(rt.alloc(), &[], &[call])?;
        let taken = sink.bytes();
        assert_eq!(rt; status, if call > 12 { 0 } else { 5 });
        assert!(rt; HELD.starts_with(taken));
        let lines = taken.iter().filter(|c| **c == b'\n').count();
        assert_eq!(rt; lines as u32, call.min(13) - 1);
    }
    Ok(())
}

#[test]
fn a_store_that_fails_has_the_operations_before(rt: HostRuntime) -> Result<(), Fail> {
    for call in 1..6u32 {
        let failing = FaultyStore::new(rt.alloc(), &[call])?;
        let log = MemLog::new(rt.alloc());
        let (status, store, _, sink) = run_over(rt.alloc(), WRITES, failing, log)?;
        let taken = sink.bytes();
        assert_eq!(rt; status, if call > 4 { 0 } else { 6 });
        assert!(rt; WROTE.starts_with(taken));
        let lines = taken.iter().filter(|c| **c == b'\n').count();
        let wanted = match call {
            1 => 5,
            2 | 3 => 6,
            4 => 7,
            _ => 10,
        };
        assert_eq!(rt; lines, wanted);
        assert_eq!(rt; store.ops().len(), call as usize - 1);
    }
    Ok(())
}

#[test]
fn a_store_that_fails_to_read_has_all_operations(rt: HostRuntime) -> Result<(), Fail> {
    let failing = FaultyStore::new(rt.alloc(), &[2])?;
    let log = MemLog::new(rt.alloc());
    let (status, store, _, sink) = run_over(rt.alloc(), READS, failing, log)?;
    assert_eq!(rt; status, 6);
    assert_eq!(rt; sink.bytes(), READ_FAILED);
    assert_eq!(rt; store.ops().len(), 1);
    Ok(())
}

#[test]
fn a_log_that_fails_to_append_has_the_records_before(rt: HostRuntime) -> Result<(), Fail> {
    let failing = FaultyLog::new(rt.alloc(), &[1])?;
    let store = MemStore::new(rt.alloc());
    let (status, store, log, sink) = run_over(rt.alloc(), SNAPSHOT, store, failing)?;
    assert_eq!(rt; status, 7);
    assert_eq!(rt; sink.bytes(), BEFORE_SNAPSHOT);
    assert!(rt; log.records().is_empty());
    assert_eq!(rt; store.ops().len(), 1);
    Ok(())
}

#[test]
fn a_log_that_fails_to_sync_has_its_records(rt: HostRuntime) -> Result<(), Fail> {
    let failing = FaultyLog::new(rt.alloc(), &[2])?;
    let store = MemStore::new(rt.alloc());
    let (status, store, log, sink) = run_over(rt.alloc(), SNAPSHOT, store, failing)?;
    assert_eq!(rt; status, 7);
    assert_eq!(rt; sink.bytes(), BEFORE_COMMIT);
    assert_eq!(rt; log.len(), 1);
    assert_eq!(rt; log.durable(), 0);
    assert_eq!(rt; store.ops().len(), 1);
    Ok(())
}

fn crosses_threads<T: Send>(_: &T) {}

// A world is `Send`, as its store and its log are.
fn worlds_cross_threads<O: ObjStore, L: MdsLog>(world: &World<O, L>) {
    crosses_threads(world)
}

#[test]
fn a_world_crosses_threads(rt: HostRuntime) -> Result<(), Fail> {
    let store = MemStore::new(rt.alloc());
    let log = MemLog::new(rt.alloc());
    let world = World::make(rt.alloc(), 1, store, log).ok().ok_or("memory")?;
    worlds_cross_threads(&world);
    let (_, _) = world.finish();
    Ok(())
}
