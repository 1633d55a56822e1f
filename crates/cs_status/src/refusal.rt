// Why an input isn't run.
ghost use Rattle.std.specs.Prelude.{◌≡◌, Some, OnOk, OnErr, IsErrOf, IfOk, string_bytes};
ghost use Rattle.std.specs.Io.KnownBytes.{Appends};
ghost use Rattle.cs_ids.specs.Devices.{Rose};
ghost use Rattle.cs_io.specs.Whole.{AppendsFront};
ghost use Rattle.cs_status.specs.Refusals.{refusal_line, refusal_status, refusal_text};
ghost use Rattle.cs_status.specs.Writes.{Writes};

use crate::write_fault::{WriteFault, write_status};
use cs_io::{Sink, write_all};
use cs_laws::ScriptFault;
use std::alloc::{AllocError, Global};
use std::fmt;

/// The most bytes of an input.
pub const MOST_BYTES: usize = 1_048_576;

/// The most events of a script.
pub const MOST_EVENTS: usize = 10_000;

/// Why an input isn't run.
#[derive(Clone, Copy)]
pub enum Refusal {
    /// It has over 1,048,576 bytes.
    TooLong,
    /// It is no script: this is its first bad line.
    Faulty(ScriptFault),
    /// It is a script of over 10,000 events.
    TooManyEvents,
    /// It is a script of over 64 `file` lines, whatever they would be answered.
    TooManyFiles,
    /// It is a script of over 64 `dir` lines, whatever they would be answered.
    TooManyDirs,
}

impl fmt::Display for Refusal {
    ghost output = { λ r. Some (refusal_text r) };

    fn fmt<W: fmt::Write>(&self, f: &mut fmt::Formatter<W>) -> fmt::Result {
        match self {
            Refusal::TooLong => write!(f, "ceph-fault limit bytes"),
            Refusal::Faulty(fault) => {
                let line = fault.line;
                let kind = fault.kind;
                write!(f, "ceph-fault script {line} {kind}")
            }
            Refusal::TooManyEvents => write!(f, "ceph-fault limit events"),
            Refusal::TooManyFiles => write!(f, "ceph-fault limit files"),
            Refusal::TooManyDirs => write!(f, "ceph-fault limit dirs"),
        }
    }
}

impl Refusal {
    /// The status of a command that ends with the refusal.
    pub fn status(&self) -> u8
        ensures { result ≡ refusal_status self.now }
    {
        match self {
            Refusal::Faulty(_) => 2,
            Refusal::TooLong
            | Refusal::TooManyEvents
            | Refusal::TooManyFiles
            | Refusal::TooManyDirs => 3,
        }
    }
}

/// Writes the line of a refusal. The status is that of the refusal, unless the writing stopped.
#[tactic(auto, using(crate::proofs::Writing::writes))]
pub fn refuse<K: Sink>(alloc: Global, refusal: &Refusal, sink: &mut K) -> u8
    ensures { Writes (refusal_status refusal.now) result (refusal_line refusal.now)
        (K.taken sink.old) (K.taken sink.new) (K.faults sink.old) (K.faults sink.new) }
{
    let written = write_refusal(alloc, refusal, sink);
    write_status(refusal.status(), &written)
}

fn write_refusal<K: Sink>(alloc: Global, refusal: &Refusal, sink: &mut K) -> Result<(), WriteFault>
    ensures ok { OnOk result (Appends (K.taken sink.old) (K.taken sink.new) (refusal_line refusal.now)) }
    ensures err { OnErr result (AppendsFront (K.taken sink.old) (K.taken sink.new) (refusal_line refusal.now)) }
    ensures cause { IsErrOf result WriteFault.Sink → Rose (K.faults sink.old) (K.faults sink.new) }
{
    let Ok(text) = refusal_text(alloc, refusal) else {
        return Err(WriteFault::Memory);
    };
    write_all(sink, text.as_bytes())?;
    Ok(())
}

fn refusal_text(alloc: Global, refusal: &Refusal) -> Result<String, AllocError>
    ensures { IfOk result (λ s. string_bytes s ≡ refusal_line refusal.now) }
{
    format!(in alloc; "{refusal}\n")
}
