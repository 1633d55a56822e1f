// The callers' references: they begin and end, and give a file another mode.
ghost use Rattle.std.specs.Prelude.{◌≡◌, ℕ, ◌<◌, ◌≤◌, true, false, IfOk, OnErr};
ghost use Rattle.std.specs.BTreeMap.{get};
ghost use Rattle.std.specs.Ordering.{nat_cmp};
ghost use Rattle.cs_capsnap.specs.CapSnaps.{is_writing};
ghost use Rattle.cs_refs.specs.Table.{begun_of};
ghost use Rattle.cs_laws.specs.declared.events.Event.TheVariants as events;
ghost use Rattle.cs_inode.specs.Calls.{started, stopped};
ghost use Rattle.cs_laws.specs.Answers.{may_write};
ghost use Rattle.cs_laws.specs.References.{can_end, named};
ghost use Rattle.cs_client.specs.Answers.{begin_answer, chmod_call_answer, end_answer};
ghost use Rattle.cs_client.specs.Calls.{RefsAfter, seq_of};
ghost use Rattle.cs_client.specs.Rows.{begun_row, ended_row, mode_row};
ghost use Rattle.cs_client.specs.Views.{AreTables, HaveTables, KeepsTables, RowsAfter, SamePlaces, SameRows};

use crate::file::ClientFile;
use cs_bits::Caps;
use cs_ids::{Caller, Ino, Memory};
use cs_inode::{Allow, ChmodStep, Inode};
use cs_laws::{Answer, RefName, Why};
use cs_parts::Live;
use cs_refs::{RefFault, Refs};
use std::collections::BTreeMap;

/// A reference with these bits to a file begins, with the end in bytes up to which it may write.
pub fn begin(
    files: &mut BTreeMap<Ino, ClientFile>,
    refs: &mut Refs,
    caller: Caller,
    file: Ino,
    bits: Caps,
    end: u32,
) -> Result<Answer, Memory>
    requires tables { HaveTables files.old refs.old.live }
    requires number { begun_of caller refs.old < 99998 }
    ensures answer { IfOk result (λ a. a ≡ begin_answer caller bits end refs.old (get nat_cmp files.old file)) }
    ensures rows { IfOk result (λ a. RowsAfter (begun_row file bits a) files.old files.new) }
    ensures refs { IfOk result (λ a. RefsAfter (events.Begin caller file bits end) a (seq_of files.old)
        refs.old refs.new) }
    ensures tables { (sent : ℕ) → AreTables files.old refs.old.live sent → AreTables files.new refs.new.live
        sent }
    ensures places { SamePlaces files.old files.new }
    ensures err { OnErr result (SameRows files.old files.new) }
{
    let Some(row) = files.get(&file) else {
        return Ok(Answer::Unknown);
    };
    let tag = match row.inode.allow(bits, end) {
        Allow::Yes { tag } => tag,
        Allow::NoCaps => return Ok(Answer::Again(Why::Caps)),
        Allow::Snap => return Ok(Answer::Again(Why::Snap)),
        Allow::Max => return Ok(Answer::Again(Why::Max)),
    };
    match refs.begin(caller, file, bits, end, tag) {
        Ok(number) => {
            let Some(row) = files.get_mut(&file) else {
                unreachable!()
            };
            start(&mut row.inode, bits);
            Ok(Answer::Ref { number })
        }
        Err(RefFault::Full { .. }) => Ok(Answer::Full),
        Err(RefFault::Memory) => Err(Memory),
    }
}

// A reference with these bits to the file has begun.
fn start(inode: &mut Inode, bits: Caps)
    requires free { may_write bits ≡ true → is_writing inode.old.snaps ≡ false }
    requires few { inode.old.writers < 256 }
    ensures { inode.new ≡ started bits inode.old }
{
    if bits.has_write() {
        inode.start_writer();
    }
}

/// A reference of a caller's own ends.
pub fn end(
    files: &mut BTreeMap<Ino, ClientFile>,
    refs: &mut Refs,
    caller: Caller,
    name: RefName,
) -> Answer
    requires tables { HaveTables files.old refs.old.live }
    ensures answer { result ≡ end_answer (can_end caller name refs.old.live) }
    ensures rows { RowsAfter (ended_row (named caller name refs.old.live) result) files.old files.new }
    ensures refs { RefsAfter (events.End caller name) result (seq_of files.old) refs.old refs.new }
    ensures tables { (sent : ℕ) → AreTables files.old refs.old.live sent → AreTables files.new refs.new.live
        sent }
    ensures places { SamePlaces files.old files.new }
{
    let RefName::Own(number) = name else {
        return Answer::Unknown;
    };
    let Some(ended) = refs.end(caller, number) else {
        return Answer::Unknown;
    };
    let Some(row) = files.get_mut(&ended.file) else {
        unreachable!()
    };
    stop(&mut row.inode, ended.bits);
    Answer::Ended
}

// A reference with these bits to the file has ended.
fn stop(inode: &mut Inode, bits: Caps)
    requires { may_write bits ≡ true → 1 ≤ inode.old.writers }
    ensures { inode.new ≡ stopped bits inode.old }
{
    if bits.has_write() {
        inode.stop_writer();
    }
}

/// The live reference that a caller uses by this name: one of its own, or one of caller 0.
pub fn find(refs: &Refs, caller: Caller, name: RefName) -> Option<Live>
    ensures { result ≡ named caller name refs.now.live }
{
    match name {
        RefName::Own(number) => refs.find(caller, number),
        RefName::Kept(number) => refs.find(Caller::new(0)?, number),
    }
}

/// The file of a reference gets another mode.
pub fn chmod(
    files: &mut BTreeMap<Ino, ClientFile>,
    refs: &Refs,
    caller: Caller,
    name: RefName,
    mode: u16,
) -> Answer
    requires tables { HaveTables files.old refs.now.live }
    ensures answer { result ≡ chmod_call_answer (named caller name refs.now.live) files.old }
    ensures rows { RowsAfter (mode_row (named caller name refs.now.live) mode result) files.old files.new }
    ensures tables { KeepsTables files.old files.new }
    ensures places { SamePlaces files.old files.new }
{
    let Some(live) = find(refs, caller, name) else {
        return Answer::Unknown;
    };
    if !live.bits.covers(Caps::AUTH_EXCL) {
        return Answer::NoBit;
    }
    let Some(row) = files.get_mut(&live.file) else {
        unreachable!()
    };
    match row.inode.chmod(mode) {
        ChmodStep::Done => Answer::Done,
        ChmodStep::Snap => Answer::Again(Why::Snap),
    }
}
