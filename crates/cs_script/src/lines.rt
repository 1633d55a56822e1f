// Reads a script, line by line.
ghost use Rattle.std.specs.Prelude.{◌≡◌, ◌∷◌, IfOk, OnOk, true};
ghost use Rattle.std.specs.List.{list_all};
ghost use Rattle.cs_laws.specs.Grammar.{in_time, is_setup, line_event, is_skipped, events_from, script_of, words_in, at_line};
ghost use Rattle.cs_laws.specs.Runs.{IsScript};
ghost use Rattle.cs_script.specs.Reading.{Gives, Spells, Reads, Pushes, texts};

use crate::Script;
use crate::forms::event_from;
use crate::line_fault::LineFault;
use cs_laws::{Event, Kind, RefName, ScriptFault};
use cs_text::{Line, Lines};
use std::alloc::{AllocError, Global};
use thiserror::Error;

/// Why a script wasn't read.
#[derive(Clone, Copy, PartialEq, Eq, Debug, Error)]
pub enum ParseFault {
    /// The first bad line.
    #[error("line {} is no line of a script", .0.line)]
    Fault(ScriptFault),
    /// Want of memory. It also comes for an input of more lines than a `u32` can count.
    #[error("out of memory")]
    Memory,
}

// The event, unless it stands too late. Here and below, the proof of a move of an event needs the type
// of a reference's name named.
fn in_time(setup: bool, event: Event) -> Result<Event, Kind>
    ensures { Gives (λ e. e) result (in_time setup event) }
{
    let _told: Option<RefName> = None;
    if is_setup(&event) && !setup {
        Err(Kind::Late)
    } else {
        Ok(event)
    }
}

fn is_setup(event: &Event) -> bool
    ensures { result ≡ is_setup event.now }
{
    matches!(event, Event::Dir { .. } | Event::File { .. })
}

fn words_of(alloc: Global, line: &[u8]) -> Result<Vec<&[u8]>, AllocError>
    ensures { IfOk result (λ v. texts v.items ≡ words_in line.now) }
{
    line.split(|b| *b == b' ').collect(alloc)
}

// The event of a line, where setup says whether lines that begin a script may still come.
#[tactic(auto, unfolding(cs_laws::specs::Grammar::line_event))]
fn line_event(alloc: Global, setup: bool, line: &[u8]) -> Result<Event, LineFault>
    ensures { Spells result (line_event setup line.now) }
{
    let _told: Option<RefName> = None;
    let Ok(words) = words_of(alloc, line) else {
        return Err(LineFault::Memory);
    };
    let event = event_from(alloc, words.as_slice())?;
    Ok(in_time(setup, event)?)
}

fn fault(line: u32, kind: Kind) -> ParseFault
    ensures { result ≡ ParseFault.Fault (record { line = line; kind = kind }) }
{
    ParseFault::Fault(ScriptFault { line, kind })
}

fn is_skipped(line: &[u8]) -> bool
    ensures { result ≡ is_skipped line.now }
{
    line.is_empty() || line[0] == b'#'
}

// Adds the event of a line, and answers whether lines that begin a script may still follow.
fn push_line(
    alloc: Global,
    events: &mut Vec<Event>,
    number: u32,
    setup: bool,
    line: &[u8],
) -> Result<bool, ParseFault>
    ensures pushes { Pushes events.old.items events.new.items setup result
        (at_line number (line_event setup line.now)) }
    ensures script { IsScript events.old.items → setup ≡ list_all is_setup events.old.items → OnOk result (IsScript events.new.items) }
{
    let _told: Option<RefName> = None;
    let event = line_event(alloc, setup, line).map_err(|fault| fault.at_line(number))?;
    let next = setup && is_setup(&event);
    match events.push(event) {
        Ok(()) => Ok(next),
        Err(_) => Err(ParseFault::Memory),
    }
}

// The events of the lines behind the header.
fn events_behind(alloc: Global, mut lines: Lines<'_>) -> Result<Vec<Event>, ParseFault>
    ensures reads { Reads (λ v. v.items) result (events_from 2 true lines.entry) }
    ensures script { IfOk result (λ v. IsScript v.items) }
{
    let mut events = Vec::new(alloc);
    let mut setup = true;
    let mut number = 2u32;
    loop {
        match lines.next_line() {
            Line::End => return Ok(events),
            Line::TooLong => return Err(fault(number, Kind::Long)),
            Line::Text(line) => {
                if !is_skipped(line) {
                    setup = push_line(alloc, &mut events, number, setup, line)?;
                }
            }
        }
        number = match number.checked_add(1) {
            Some(next) => next,
            None => return Err(ParseFault::Memory),
        };
    }
}

/// The events of a script, or its first bad line and what is wrong with it.
#[tactic(auto, unfolding(cs_laws::specs::Grammar::script_of))]
pub fn parse(alloc: Global, b: &[u8]) -> Result<Script, ParseFault>
    ensures { Reads (λ script. script) result (script_of b.now) }
{
    let mut lines = Lines::new(b);
    match lines.next_line() {
        Line::End => return Err(fault(1, Kind::Header)),
        Line::TooLong => return Err(fault(1, Kind::Long)),
        Line::Text(line) => {
            if line != b"ceph-script 1".as_slice() {
                return Err(fault(1, Kind::Header));
            }
        }
    }
    let events = events_behind(alloc, lines)?;
    Ok(Script::from_events(events))
}
