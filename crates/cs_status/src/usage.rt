// The line of faulty words.
ghost use Rattle.std.specs.Prelude.{◌≡◌, OnOk, OnErr, IsErrOf};
ghost use Rattle.std.specs.Io.KnownBytes.{Appends};
ghost use Rattle.cs_ids.specs.Devices.{Rose};
ghost use Rattle.cs_io.specs.Whole.{AppendsFront};
ghost use Rattle.cs_status.specs.Writes.{Writes, usage_line};

use crate::write_fault::{WriteFault, write_status};
use cs_io::{Sink, write_all};

/// Writes the line of faulty words. The status is 1, unless the writing stopped.
#[tactic(auto, using(crate::proofs::Writing::writes))]
pub fn tell_usage<K: Sink>(sink: &mut K) -> u8
    ensures { Writes 1 result usage_line
        (K.taken sink.old) (K.taken sink.new) (K.faults sink.old) (K.faults sink.new) }
{
    let written = write_usage(sink);
    write_status(1, &written)
}

fn write_usage<K: Sink>(sink: &mut K) -> Result<(), WriteFault>
    ensures ok { OnOk result (Appends (K.taken sink.old) (K.taken sink.new) usage_line) }
    ensures err { OnErr result (AppendsFront (K.taken sink.old) (K.taken sink.new) usage_line) }
    ensures cause { IsErrOf result WriteFault.Sink → Rose (K.faults sink.old) (K.faults sink.new) }
{
    write_all(sink, b"ceph-fault usage\n")?;
    Ok(())
}
