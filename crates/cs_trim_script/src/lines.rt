// Reads a script, line by line.
ghost use Rattle.std.specs.Prelude.{◌≡◌, All, IfOk, OnOk, true};
ghost use Rattle.cs_laws.specs.Grammar.{is_skipped, words_in, at_line};
ghost use Rattle.cs_script.specs.Reading.{Reads, texts};
ghost use Rattle.cs_trim_script.specs.Fits.{AllFit, fits};
ghost use Rattle.cs_trim_script.specs.Grammar.{events_from, line_event, script_of};
ghost use Rattle.cs_trim_script.specs.Reading.{Pushes, Spells};

use crate::forms::event_from;
use crate::line_fault::LineFault;
use crate::{Event, ParseFault, Script};
use cs_laws::{At, Kind, ScriptFault};
use cs_text::{Line, Lines};
use std::alloc::{AllocError, Global};

fn words_of(alloc: Global, line: &[u8]) -> Result<Vec<&[u8]>, AllocError>
    ensures { IfOk result (λ v. texts v.items ≡ words_in line.now) }
{
    line.split(|b| *b == b' ').collect(alloc)
}

// The event of a line.
#[tactic(auto, unfolding(crate::specs::Grammar::line_event))]
fn line_event(alloc: Global, line: &[u8]) -> Result<Event, LineFault>
    ensures event { Spells result (line_event line.now) }
    ensures fits { IfOk result (λ e. fits e ≡ true) }
{
    let _at: Option<At> = None;
    let Ok(words) = words_of(alloc, line) else {
        return Err(LineFault::Memory);
    };
    event_from(alloc, words.as_slice())
}

fn fault(line: u32, kind: Kind) -> ParseFault
    ensures { result ≡ ParseFault.Fault (record { line = line; kind = kind }) }
{
    ParseFault::Fault(ScriptFault { line, kind })
}

fn is_skipped(line: &[u8]) -> bool
    ensures { result ≡ is_skipped line.now }
{
    line.is_empty() || line[0] == b'#'
}

// Adds the event of a line.
fn push_line(
    alloc: Global,
    events: &mut Vec<Event>,
    number: u32,
    line: &[u8],
) -> Result<(), ParseFault>
    ensures pushes { Pushes events.old.items events.new.items result (at_line number (line_event line.now)) }
    ensures fitting { AllFit events.old.items → OnOk result (AllFit events.new.items) }
{
    let _at: Option<At> = None;
    let event = line_event(alloc, line).map_err(|fault| fault.at_line(number))?;
    match events.push(event) {
        Ok(()) => Ok(()),
        Err(_) => Err(ParseFault::Memory),
    }
}

// The events of the lines behind the header.
fn events_behind(alloc: Global, mut lines: Lines<'_>) -> Result<Vec<Event>, ParseFault>
    ensures reads { Reads (λ v. v.items) result (events_from 2 lines.entry) }
    ensures fitting { IfOk result (λ v. AllFit v.items) }
{
    let mut events = Vec::new(alloc);
    let mut number = 2u32;
    loop {
        match lines.next_line() {
            Line::End => return Ok(events),
            Line::TooLong => return Err(fault(number, Kind::Long)),
            Line::Text(line) => {
                if !is_skipped(line) {
                    push_line(alloc, &mut events, number, line)?;
                }
            }
        }
        number = match number.checked_add(1) {
            Some(next) => next,
            None => return Err(ParseFault::Memory),
        };
    }
}

/// The events of a script, or its first bad line and what is wrong with it.
#[tactic(auto, unfolding(crate::specs::Grammar::script_of))]
pub fn parse(alloc: Global, b: &[u8]) -> Result<Script, ParseFault>
    ensures { Reads (λ script. script) result (script_of b.now) }
{
    let mut lines = Lines::new(b);
    match lines.next_line() {
        Line::End => return Err(fault(1, Kind::Header)),
        Line::TooLong => return Err(fault(1, Kind::Long)),
        Line::Text(line) => {
            if line != b"ceph-trim 1".as_slice() {
                return Err(fault(1, Kind::Header));
            }
        }
    }
    let events = events_behind(alloc, lines)?;
    Ok(Script::from_events(events))
}
