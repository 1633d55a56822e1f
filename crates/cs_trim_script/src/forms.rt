// The forms of events, each by the fields behind its first word.
ghost use Rattle.std.specs.Prelude.{◌≡◌, true, IfOk};
ghost use Rattle.cs_script.specs.Reading.{texts};
ghost use Rattle.cs_trim_script.specs.Fits.{fits};
ghost use Rattle.cs_trim_script.specs.Grammar.{clones_of, event_by, event_of, read_of, remove_of, write_of};
ghost use Rattle.cs_trim_script.specs.Reading.{Spells};

use crate::Event;
use crate::fields::{at_field, bytes_at, ends_in_object, len_at, object_at, off_at, only, snap_at};
use crate::line_fault::LineFault;
use cs_laws::{At, Kind};
use std::alloc::Global;

#[tactic(auto, unfolding(crate::specs::Grammar::remove_of))]
fn remove_from(words: &[&[u8]]) -> Result<Event, LineFault>
    ensures event { Spells result (remove_of (texts words.now)) }
    ensures fits { IfOk result (λ e. fits e ≡ true) }
{
    let snap = snap_at(words, 1)?;
    only(2, Event::RmSnap { snap }, words)
}

#[tactic(auto, unfolding(crate::specs::Grammar::write_of))]
fn write_from(alloc: Global, words: &[&[u8]]) -> Result<Event, LineFault>
    ensures event { Spells result (write_of (texts words.now)) }
    ensures fits { IfOk result (λ e. fits e ≡ true) }
{
    let _at: Option<At> = None;
    let object = object_at(words, 1)?;
    let off = off_at(words, 2)?;
    let bytes = bytes_at(alloc, words, 3)?;
    let count = bytes.as_slice().len();
    let event = only(4, Event::Write { object, off, bytes }, words)?;
    ends_in_object(off, count, event)
}

#[tactic(auto, unfolding(crate::specs::Grammar::clones_of))]
fn clones_from(words: &[&[u8]]) -> Result<Event, LineFault>
    ensures event { Spells result (clones_of (texts words.now)) }
    ensures fits { IfOk result (λ e. fits e ≡ true) }
{
    let object = object_at(words, 1)?;
    only(2, Event::Clones { object }, words)
}

#[tactic(auto, unfolding(crate::specs::Grammar::read_of))]
fn read_from(words: &[&[u8]]) -> Result<Event, LineFault>
    ensures event { Spells result (read_of (texts words.now)) }
    ensures fits { IfOk result (λ e. fits e ≡ true) }
{
    let _at: Option<At> = None;
    let object = object_at(words, 1)?;
    let at = at_field(words, 2)?;
    let off = off_at(words, 3)?;
    let len = len_at(words, 4)?;
    let event = only(
        5,
        Event::Read {
            object,
            at,
            off,
            len,
        },
        words,
    )?;
    ends_in_object(off, len as usize, event)
}

#[tactic(auto, unfolding(crate::specs::Grammar::event_by))]
fn event_by(alloc: Global, word: &[u8], words: &[&[u8]]) -> Result<Event, LineFault>
    ensures event { Spells result (event_by word.now (texts words.now)) }
    ensures fits { IfOk result (λ e. fits e ≡ true) }
{
    if word == b"snap".as_slice() {
        only(1, Event::Snap, words)
    } else if word == b"rmsnap".as_slice() {
        remove_from(words)
    } else if word == b"write".as_slice() {
        write_from(alloc, words)
    } else if word == b"trim".as_slice() {
        only(1, Event::Trim, words)
    } else if word == b"clones".as_slice() {
        clones_from(words)
    } else if word == b"read".as_slice() {
        read_from(words)
    } else {
        Err(LineFault::Kind(Kind::Word))
    }
}

/// The event that the words of a line spell, or what is wrong with them.
#[tactic(auto, unfolding(crate::specs::Grammar::event_of))]
pub fn event_from(alloc: Global, words: &[&[u8]]) -> Result<Event, LineFault>
    ensures event { Spells result (event_of (texts words.now)) }
    ensures fits { IfOk result (λ e. fits e ≡ true) }
{
    match words.first() {
        Some(word) => event_by(alloc, word, words),
        None => Err(LineFault::Kind(Kind::Word)),
    }
}
