// Does the events of a script and writes the journal as they are done.
ghost use Rattle.std.specs.Prelude.{◌≡◌, ◌≤◌, length, OnOk, OnErr, IsErrOf};
ghost use Rattle.std.specs.Io.KnownBytes.{Appends};
ghost use Rattle.cs_ids.specs.Devices.{Rose};
ghost use Rattle.cs_io.specs.Whole.{AppendsFront};
ghost use Rattle.cs_trim_script.specs.Fits.{AllFit};
ghost use Rattle.cs_trim_script.specs.Journal.{line, text, trim_journal};

use cs_ids::Bytes;
use cs_io::{Sink, write_all};
use cs_status::{WriteFault, write_end};
use cs_trim_script::{Answer, Event, TrimRun, print_entry};
use std::alloc::Global;

/// Does the events in order. Writes the header first, the line of each entry after its event, and the
/// end line last. Where it stops the sink has a front of the journal's text.
pub fn write_journal<K: Sink>(
    alloc: Global,
    events: &[Event],
    sink: &mut K,
) -> Result<(), WriteFault>
    requires few { length events.now ≤ 10000 }
    requires fitting { AllFit events.now }
    ensures ok { OnOk result (Appends (K.taken sink.old) (K.taken sink.new) (text (trim_journal events.now))) }
    ensures err { OnErr result (AppendsFront (K.taken sink.old) (K.taken sink.new) (text (trim_journal events.now))) }
    ensures cause { IsErrOf result WriteFault.Sink → Rose (K.faults sink.old) (K.faults sink.new) }
{
    write_all(sink, b"ceph-trim-journal 1\n")?;
    let mut run = TrimRun::new(alloc);
    let mut text = Bytes::new(alloc);
    let mut number = 0u32;
    for event in events {
        let answer = run.step(event)?;
        number += 1;
        write_entry(number, event, &answer, &mut text, sink)?;
    }
    write_end(alloc, events.len(), sink)?;
    Ok(())
}

// Writes the line of an entry. The text is scratch.
fn write_entry<K: Sink>(
    number: u32,
    event: &Event,
    answer: &Answer,
    text: &mut Bytes,
    sink: &mut K,
) -> Result<(), WriteFault>
    ensures ok { OnOk result (Appends (K.taken sink.old) (K.taken sink.new) (line number (record { event = event.now; answer = answer.now }))) }
    ensures err { OnErr result (AppendsFront (K.taken sink.old) (K.taken sink.new) (line number (record { event = event.now; answer = answer.now }))) }
    ensures later { K.faults sink.old ≤ K.faults sink.new }
    ensures cause { IsErrOf result WriteFault.Sink → Rose (K.faults sink.old) (K.faults sink.new) }
{
    text.clear();
    print_entry(number, event, answer, text)?;
    write_all(sink, text.as_slice())?;
    Ok(())
}
