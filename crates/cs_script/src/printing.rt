// The lines of events and entries.
ghost use Rattle.std.specs.Prelude.{◌≡◌, ◌++◌, OnOk, OnErr};
ghost use Rattle.cs_laws.specs.Journal.{line};
ghost use Rattle.cs_laws.specs.Texts.{event_text};

use cs_ids::{Bytes, Memory};
use cs_laws::{Answer, Event};

/// Adds an event as a script spells it, without a newline. After `Memory` `out` is as before.
pub fn print_event(event: &Event, out: &mut Bytes) -> Result<(), Memory>
    ensures ok { OnOk result (out.new ≡ out.old ++ event_text event.now) }
    ensures err { OnErr result (out.new ≡ out.old) }
{
    let text = format!(in out.allocator(); "{event}")?;
    out.append(text.as_bytes())
}

/// Adds the journal's line of its `n`-th entry, counted from 1, with a newline. After `Memory` `out`
/// is as before.
pub fn print_entry(n: u32, event: &Event, answer: &Answer, out: &mut Bytes) -> Result<(), Memory>
    ensures ok { OnOk result (out.new ≡ out.old ++ line n (record { event = event.now; answer = answer.now })) }
    ensures err { OnErr result (out.new ≡ out.old) }
{
    let text = format!(in out.allocator(); "{n} {event} -> {answer}\n")?;
    out.append(text.as_bytes())
}
