// Does the events of a script and writes the journal as they are done.
ghost use Rattle.std.specs.Prelude.{◌≡◌, ◌<◌, ◌≤◌, [], true, length, OnOk, OnErr, IsErrOf, IfErr};
ghost use Rattle.std.specs.Io.KnownBytes.{Appends};
ghost use Rattle.cs_ids.specs.Devices.{Rose};
ghost use Rattle.cs_io.specs.Whole.{AppendsFront};
ghost use Rattle.cs_laws.specs.Agreement.{Agrees};
ghost use Rattle.cs_laws.specs.Journal.{journal, line, text};
ghost use Rattle.cs_laws.specs.Runs.{IsScript};
ghost use Rattle.cs_run.specs.Stopped.{Stops};

use crate::run_fault::RunFault;
use cs_ids::Bytes;
use cs_io::{Sink, write_all};
use cs_laws::{Answer, Event};
use cs_mdslog::MdsLog;
use cs_objstore::ObjStore;
use cs_script::print_entry;
use cs_status::{WriteFault, write_end};
use cs_world::World;
use std::alloc::Global;

/// Does the events in order. Writes the header first, the line of each entry after its event, and the
/// end line last. The store and the log then agree with the journal.
///
/// Where the sink fails it has all lines before that of the last event that was done, and no byte of a
/// later event's, and store and log agree with the journal of the events done. Where the store or the log
/// fails in an event the sink has the lines before the event's own. A store that fails lists the
/// operations of the events before it and then a front of its own, and the log has their records. A log
/// that fails has the records of the events before it, or those with its entry, and the store lists their
/// operations. Want of memory stops it in one of these ways.
pub fn write_journal<K: Sink, O: ObjStore, L: MdsLog>(
    alloc: Global,
    world: &mut World<O, L>,
    events: &[Event],
    sink: &mut K,
) -> Result<(), RunFault>
    requires live { world.old.live ≡ true }
    requires fresh { world.old.history ≡ [] }
    requires store { O.ops world.old.store ≡ [] }
    requires log { L.records world.old.log ≡ [] }
    requires durable { L.durable world.old.log ≡ 0 }
    requires few { length events.now ≤ 10000 }
    requires script { IsScript events.now }
    ensures ok { OnOk result (Appends (K.taken sink.old) (K.taken sink.new) (text (journal world.old.pages events.now))) }
    ensures agrees { OnOk result (Agrees (O.ops world.new.store) (L.records world.new.log) (L.durable world.new.log)
        (journal world.old.pages events.now)) }
    ensures err { IfErr result (λ f. Stops f world.old.pages events.now (K.taken sink.old) (K.taken sink.new)
        (record { ops = O.ops world.new.store; records = L.records world.new.log; durable = L.durable world.new.log })) }
    ensures sink { IsErrOf result RunFault.Sink → Rose (K.faults sink.old) (K.faults sink.new) }
    ensures store { IsErrOf result RunFault.Store → Rose (O.faults world.old.store) (O.faults world.new.store) }
    ensures log { IsErrOf result RunFault.Log → Rose (L.faults world.old.log) (L.faults world.new.log) }
{
    write_all(sink, b"ceph-journal 1\n")?;
    let mut text = Bytes::new(alloc);
    for event in events {
        let answer = world.step(event)?;
        let number = world.entries().len() as u32;
        write_entry(number, event, &answer, &mut text, sink)?;
    }
    let count = world.entries().len();
    write_end(alloc, count, sink)?;
    Ok(())
}

// Writes the line of an entry. The text is scratch.
fn write_entry<K: Sink>(
    number: u32,
    event: &Event,
    answer: &Answer,
    text: &mut Bytes,
    sink: &mut K,
) -> Result<(), WriteFault>
    ensures ok { OnOk result (Appends (K.taken sink.old) (K.taken sink.new) (line number (record { event = event.now; answer = answer.now }))) }
    ensures err { OnErr result (AppendsFront (K.taken sink.old) (K.taken sink.new) (line number (record { event = event.now; answer = answer.now }))) }
    ensures later { K.faults sink.old ≤ K.faults sink.new }
    ensures cause { IsErrOf result WriteFault.Sink → Rose (K.faults sink.old) (K.faults sink.new) }
{
    text.clear();
    print_entry(number, event, answer, text)?;
    write_all(sink, text.as_slice())?;
    Ok(())
}
