// The last line of a journal.
ghost use Rattle.std.specs.Prelude.{◌≡◌, ◌≤◌, OnOk, OnErr, IsErrOf, IfOk, string_bytes};
ghost use Rattle.std.specs.Io.KnownBytes.{Appends};
ghost use Rattle.cs_ids.specs.Devices.{Rose};
ghost use Rattle.cs_io.specs.Whole.{AppendsFront};
ghost use Rattle.cs_laws.specs.Journal.{end_line};

use crate::write_fault::WriteFault;
use cs_io::{Sink, write_all};
use std::alloc::{AllocError, Global};

fn end_text(alloc: Global, count: usize) -> Result<String, AllocError>
    ensures { IfOk result (λ s. string_bytes s ≡ end_line count) }
{
    format!(in alloc; "end {count}\n")
}

/// Writes the last line of a journal, which says how many entries it has.
pub fn write_end<K: Sink>(alloc: Global, count: usize, sink: &mut K) -> Result<(), WriteFault>
    ensures ok { OnOk result (Appends (K.taken sink.old) (K.taken sink.new) (end_line count)) }
    ensures err { OnErr result (AppendsFront (K.taken sink.old) (K.taken sink.new) (end_line count)) }
    ensures later { K.faults sink.old ≤ K.faults sink.new }
    ensures cause { IsErrOf result WriteFault.Sink → Rose (K.faults sink.old) (K.faults sink.new) }
{
    let Ok(text) = end_text(alloc, count) else {
        return Err(WriteFault::Memory);
    };
    write_all(sink, text.as_bytes())?;
    Ok(())
}
