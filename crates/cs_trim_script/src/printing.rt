// The texts of events and answers, and the lines of a journal.
ghost use Rattle.std.specs.Prelude.{◌≡◌, ◌++◌, Some, OnOk, OnErr};
ghost use Rattle.cs_trim_script.specs.Journal.{line};
ghost use Rattle.cs_trim_script.specs.Texts.{answer_text, event_text};

use crate::{Answer, Event};
use cs_ids::{Bytes, Memory};
use cs_laws::At;
use cs_text::HexText;
use std::fmt;

impl fmt::Display for Event {
    ghost output = { λ x. Some (event_text x) };

    fn fmt<W: fmt::Write>(&self, f: &mut fmt::Formatter<W>) -> fmt::Result {
        match self {
            Event::Snap => write!(f, "snap"),
            Event::RmSnap { snap } => write!(f, "rmsnap {}", snap.get()),
            Event::Write { object, off, bytes } => {
                let digits = HexText(bytes.as_slice());
                write!(f, "write {object} {off} {digits}")
            }
            Event::Trim => write!(f, "trim"),
            Event::Clones { object } => write!(f, "clones {object}"),
            Event::Read {
                object,
                at,
                off,
                len,
            } => { write!(f, "read {object} {at} {off} {len}") }
        }
    }
}

impl fmt::Display for Answer {
    ghost output = { λ x. Some (answer_text x) };

    fn fmt<W: fmt::Write>(&self, f: &mut fmt::Formatter<W>) -> fmt::Result {
        match self {
            Answer::Snap { snap } => write!(f, "snap {}", snap.get()),
            Answer::NoSnap => write!(f, "nosnap"),
            Answer::Gone => write!(f, "gone"),
            Answer::Removed { snap, number } => {
                write!(f, "removed {} {}", snap.get(), number.get())
            }
            Answer::Wrote { number } => write!(f, "wrote {number}"),
            Answer::Trimmed { count } => write!(f, "trimmed {count}"),
            Answer::Clones { count } => write!(f, "clones {count}"),
            Answer::Bytes { bytes } => {
                let digits = HexText(bytes.as_slice());
                write!(f, "bytes {digits}")
            }
        }
    }
}

/// Adds the journal's line of its `n`-th entry, counted from 1, with a newline. After `Memory` `out`
/// is as before.
pub fn print_entry(n: u32, event: &Event, answer: &Answer, out: &mut Bytes) -> Result<(), Memory>
    ensures ok { OnOk result (out.new ≡ out.old ++ line n (record { event = event.now; answer = answer.now })) }
    ensures err { OnErr result (out.new ≡ out.old) }
{
    let text = format!(in out.allocator(); "{n} {event} -> {answer}\n")?;
    out.append(text.as_bytes())
}
