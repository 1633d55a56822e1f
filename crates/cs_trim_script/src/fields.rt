// The fields of a line, each at its place among the words.
ghost use Rattle.std.specs.Prelude.{◌≡◌, ◌≤◌, ◌+◌, true, length, Some, IfOk};
ghost use Rattle.cs_geom.specs.declared.places.TheConstants.{OBJECT_SIZE};
ghost use Rattle.cs_ids.specs.Ranges.{IsIn};
ghost use Rattle.cs_laws.specs.Fits.{is_state, most_shown, most_written};
ghost use Rattle.cs_laws.specs.Grammar.{number_in, number_at, bytes_of, bytes_at, at_in, at_field};
ghost use Rattle.cs_script.specs.Reading.{Gives, texts};
ghost use Rattle.cs_trim_script.specs.Fits.{fits};
ghost use Rattle.cs_trim_script.specs.Grammar.{only, ends_in_object};
ghost use Rattle.cs_trim_script.specs.Reading.{Spells};

use crate::Event;
use crate::line_fault::LineFault;
use cs_ids::{Bytes, Snap};
use cs_laws::{At, Kind};
use cs_text::{Dec, read_dec, read_hex};
use std::alloc::Global;

fn number_of(word: &[u8], low: u64, high: u64) -> Result<u64, Kind>
    ensures number { result ≡ number_in low high word.now }
    ensures range { IfOk result (IsIn low high) }
{
    match read_dec(word) {
        Dec::Shape => Err(Kind::Number),
        Dec::Value(value) if low <= value && value <= high => Ok(value),
        _ => Err(Kind::Range),
    }
}

fn number_at(words: &[&[u8]], i: usize, low: u64, high: u64) -> Result<u64, Kind>
    ensures number { result ≡ number_at i low high (texts words.now) }
    ensures range { IfOk result (IsIn low high) }
{
    match words.get(i) {
        Some(word) => number_of(word, low, high),
        None => Err(Kind::Word),
    }
}

/// An object, 0 to 63.
pub fn object_at(words: &[&[u8]], i: usize) -> Result<u32, Kind>
    ensures number { Gives (λ x. x) result (number_at i 0 63 (texts words.now)) }
    ensures range { IfOk result (λ b. b ≤ 63) }
{
    let value = number_at(words, i, 0, 63)?;
    Ok(value as u32)
}

/// A place in an object, in bytes, below its size.
pub fn off_at(words: &[&[u8]], i: usize) -> Result<u32, Kind>
    ensures number { Gives (λ x. x) result (number_at i 0 65535 (texts words.now)) }
    ensures range { IfOk result (λ off. off ≤ 65535) }
{
    let value = number_at(words, i, 0, 65_535)?;
    Ok(value as u32)
}

/// How many bytes are read, 1 to 4,096.
pub fn len_at(words: &[&[u8]], i: usize) -> Result<u32, Kind>
    ensures number { Gives (λ x. x) result (number_at i 1 most_shown (texts words.now)) }
    ensures range { IfOk result (IsIn 1 most_shown) }
{
    let value = number_at(words, i, 1, 4096)?;
    Ok(value as u32)
}

// The bytes, where they are some and not too many for one write.
#[tactic(auto, using(cs_script::proofs::Written::few_bytes, cs_script::proofs::Written::many_bytes))]
fn written(bytes: Bytes) -> Result<Bytes, Kind>
    ensures bytes { Gives (λ b. b) result (bytes_of (Some bytes)) }
    ensures range { IfOk result (λ b. IsIn 1 most_written (length b)) }
{
    match bytes.as_slice().len() {
        0 => Err(Kind::Word),
        1..=1024 => Ok(bytes),
        _ => Err(Kind::Range),
    }
}

/// The bytes of one write, two digits each.
pub fn bytes_at(alloc: Global, words: &[&[u8]], i: usize) -> Result<Bytes, LineFault>
    ensures bytes { Spells result (bytes_at i (texts words.now)) }
    ensures range { IfOk result (λ b. IsIn 1 most_written (length b)) }
{
    let word = words.get(i).ok_or(Kind::Word)?;
    let bytes = read_hex(alloc, word)?.ok_or(Kind::Word)?;
    Ok(written(bytes)?)
}

fn snap_of(word: &[u8]) -> Result<Snap, Kind>
    ensures number { Gives (λ s. s) result (number_in 1 99999 word.now) }
    ensures range { IfOk result (λ s. 1 ≤ s) }
{
    let value = number_of(word, 1, 99_999)?;
    Snap::new(value).ok_or(Kind::Range)
}

/// The number of a snapshot.
pub fn snap_at(words: &[&[u8]], i: usize) -> Result<Snap, Kind>
    ensures number { Gives (λ s. s) result (number_at i 1 99999 (texts words.now)) }
    ensures range { IfOk result (λ s. 1 ≤ s) }
{
    match words.get(i) {
        Some(word) => snap_of(word),
        None => Err(Kind::Word),
    }
}

fn at_from(word: &[u8]) -> Result<At, Kind>
    ensures state { Gives (λ a. a) result (at_in word.now) }
    ensures range { IfOk result (λ a. is_state a ≡ true) }
{
    if word == b"head".as_slice() {
        Ok(At::Head)
    } else {
        Ok(At::Snap(snap_of(word)?))
    }
}

/// A snapshot, or the present.
pub fn at_field(words: &[&[u8]], i: usize) -> Result<At, Kind>
    ensures state { Gives (λ x. x) result (at_field i (texts words.now)) }
    ensures range { IfOk result (λ a. is_state a ≡ true) }
{
    match words.get(i) {
        Some(word) => at_from(word),
        None => Err(Kind::Word),
    }
}

/// The event, unless there are more than `count` words: then a further word is its fault.
pub fn only(count: usize, event: Event, words: &[&[u8]]) -> Result<Event, LineFault>
    ensures event { Spells result (only count event (texts words.now)) }
    ensures same { IfOk result (λ e. e ≡ event) }
{
    let _at: Option<At> = None;
    if words.len() <= count {
        Ok(event)
    } else {
        Err(LineFault::Kind(Kind::Extra))
    }
}

/// The event, unless its bytes go past where an object ends.
pub fn ends_in_object(off: u32, count: usize, event: Event) -> Result<Event, LineFault>
    ensures event { Spells result (ends_in_object off count event) }
    ensures same { IfOk result (λ e. e ≡ event) }
    ensures within { IfOk result (λ _. off + count ≤ OBJECT_SIZE) }
{
    let _at: Option<At> = None;
    if count.saturating_add(off as usize) <= 65_536 {
        Ok(event)
    } else {
        Err(LineFault::Kind(Kind::Range))
    }
}
