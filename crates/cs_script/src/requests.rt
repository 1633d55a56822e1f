// The forms of requests, each by the fields behind its second word.
ghost use Rattle.std.specs.Prelude.{◌≡◌};
ghost use Rattle.cs_laws.specs.declared.requests.ReqOp.TheVariants as ops;
ghost use Rattle.cs_laws.specs.Grammar.{name_req_of, rename_req_of, req_by, req_of};
ghost use Rattle.cs_script.specs.Reading.{Spells, texts};

use crate::fields::{caller_at, ino_at, name_field, only};
use crate::line_fault::LineFault;
use cs_ids::Caller;
use cs_laws::{Event, Kind, ReqOp};
use std::alloc::Global;

#[tactic(auto, unfolding(cs_laws::specs::Grammar::name_req_of))]
fn mkdir_from(alloc: Global, caller: Caller, words: &[&[u8]]) -> Result<Event, LineFault>
    ensures { Spells result (name_req_of ops.Mkdir caller (texts words.now)) }
{
    let dir = ino_at(words, 3, 1, 99_999)?;
    let name = name_field(alloc, words, 4)?;
    let op = ReqOp::Mkdir { dir, name };
    only(5, Event::Req { caller, op }, words)
}

#[tactic(auto, unfolding(cs_laws::specs::Grammar::name_req_of))]
fn create_from(alloc: Global, caller: Caller, words: &[&[u8]]) -> Result<Event, LineFault>
    ensures { Spells result (name_req_of ops.Create caller (texts words.now)) }
{
    let dir = ino_at(words, 3, 1, 99_999)?;
    let name = name_field(alloc, words, 4)?;
    let op = ReqOp::Create { dir, name };
    only(5, Event::Req { caller, op }, words)
}

#[tactic(auto, unfolding(cs_laws::specs::Grammar::name_req_of))]
fn unlink_from(alloc: Global, caller: Caller, words: &[&[u8]]) -> Result<Event, LineFault>
    ensures { Spells result (name_req_of ops.Unlink caller (texts words.now)) }
{
    let dir = ino_at(words, 3, 1, 99_999)?;
    let name = name_field(alloc, words, 4)?;
    let op = ReqOp::Unlink { dir, name };
    only(5, Event::Req { caller, op }, words)
}

#[tactic(auto, unfolding(cs_laws::specs::Grammar::name_req_of))]
fn lookup_from(alloc: Global, caller: Caller, words: &[&[u8]]) -> Result<Event, LineFault>
    ensures { Spells result (name_req_of ops.Lookup caller (texts words.now)) }
{
    let dir = ino_at(words, 3, 1, 99_999)?;
    let name = name_field(alloc, words, 4)?;
    let op = ReqOp::Lookup { dir, name };
    only(5, Event::Req { caller, op }, words)
}

#[tactic(auto, unfolding(cs_laws::specs::Grammar::rename_req_of))]
fn rename_from(alloc: Global, caller: Caller, words: &[&[u8]]) -> Result<Event, LineFault>
    ensures { Spells result (rename_req_of caller (texts words.now)) }
{
    let dir = ino_at(words, 3, 1, 99_999)?;
    let name = name_field(alloc, words, 4)?;
    let new_name = name_field(alloc, words, 5)?;
    let op = ReqOp::Rename {
        dir,
        name,
        new_name,
    };
    only(6, Event::Req { caller, op }, words)
}

#[tactic(auto, unfolding(cs_laws::specs::Grammar::req_by))]
fn request_by(
    alloc: Global,
    caller: Caller,
    word: &[u8],
    words: &[&[u8]],
) -> Result<Event, LineFault>
    ensures { Spells result (req_by caller (texts words.now) word.now) }
{
    if word == b"mkdir".as_slice() {
        mkdir_from(alloc, caller, words)
    } else if word == b"create".as_slice() {
        create_from(alloc, caller, words)
    } else if word == b"unlink".as_slice() {
        unlink_from(alloc, caller, words)
    } else if word == b"rename".as_slice() {
        rename_from(alloc, caller, words)
    } else if word == b"lookup".as_slice() {
        lookup_from(alloc, caller, words)
    } else {
        Err(LineFault::Kind(Kind::Word))
    }
}

/// The request that the words of a line spell, or what is wrong with them.
#[tactic(auto, unfolding(cs_laws::specs::Grammar::req_of))]
pub fn request_from(alloc: Global, words: &[&[u8]]) -> Result<Event, LineFault>
    ensures { Spells result (req_of (texts words.now)) }
{
    let caller = caller_at(words, 1)?;
    match words.get(2) {
        Some(word) => request_by(alloc, caller, word, words),
        None => Err(LineFault::Kind(Kind::Word)),
    }
}
