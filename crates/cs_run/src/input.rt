// Reads the input of a run and judges it.
ghost use Rattle.std.specs.Prelude.{◌≡◌, ◌≤◌, IfOk, IsErrOf, count_by};
ghost use Rattle.cs_ids.specs.Devices.{Rose};
ghost use Rattle.cs_run.specs.Inputs.{JudgesWhole, JudgesScript, IsWithinLimit, is_dir, is_file};

use cs_ids::Memory;
use cs_io::{ReadAll, ReadFault, Source, read_all};
use cs_laws::{Event, ReqOp};
use cs_script::{ParseFault, Script, parse};
use cs_status::{MOST_BYTES, MOST_EVENTS, Refusal};
use std::alloc::Global;

/// The most `file` lines and requests for `create` of a script.
const MOST_FILES: usize = 64;

/// The most `dir` lines and requests for `mkdir` of a script.
const MOST_DIRS: usize = 64;

/// What the input of a run is.
#[derive(Drop)]
pub enum Input {
    /// It isn't run.
    Refused(Refusal),
    /// It is a script within the limits.
    Runs(Script),
}

/// Reads the input to its end, unless it is too long, and judges it.
pub fn read_input<S: Source>(alloc: Global, source: &mut S) -> Result<Input, ReadFault>
    ensures ok { IfOk result (JudgesWhole (S.left source.old) (S.left source.new)) }
    ensures few { IfOk result IsWithinLimit }
    ensures later { S.faults source.old ≤ S.faults source.new }
    ensures failed { IsErrOf result ReadFault.Failed → Rose (S.faults source.old) (S.faults source.new) }
{
    match read_all(alloc, source, MOST_BYTES)? {
        ReadAll::TooLong => Ok(Input::Refused(Refusal::TooLong)),
        ReadAll::All(bytes) => Ok(judge(alloc, bytes.as_slice())?),
    }
}

// Judges an input that isn't too long.
fn judge(alloc: Global, bytes: &[u8]) -> Result<Input, Memory>
    ensures judged { IfOk result (JudgesScript bytes.now) }
    ensures few { IfOk result IsWithinLimit }
{
    match parse(alloc, bytes) {
        Err(ParseFault::Memory) => Err(Memory),
        Err(ParseFault::Fault(fault)) => Ok(Input::Refused(Refusal::Faulty(fault))),
        Ok(script) => {
            if script.len() > MOST_EVENTS {
                Ok(Input::Refused(Refusal::TooManyEvents))
            } else if count_files(script.events()) > MOST_FILES {
                Ok(Input::Refused(Refusal::TooManyFiles))
            } else if count_dirs(script.events()) > MOST_DIRS {
                Ok(Input::Refused(Refusal::TooManyDirs))
            } else {
                Ok(Input::Runs(script))
            }
        }
    }
}

// How many lines and requests of a script make a file, or may.
fn count_files(events: &[Event]) -> usize
    ensures { result ≡ count_by is_file events.now }
{
    let mut count = 0;
    for event in events {
        if is_file(event) {
            count += 1;
        }
    }
    count
}

// How many of them make a directory, or may.
fn count_dirs(events: &[Event]) -> usize
    ensures { result ≡ count_by is_dir events.now }
{
    let mut count = 0;
    for event in events {
        if is_dir(event) {
            count += 1;
        }
    }
    count
}

fn is_file(event: &Event) -> bool
    ensures { result ≡ is_file event.now }
{
    match event {
        Event::File { .. } => true,
        Event::Req { op, .. } => matches!(op, ReqOp::Create { .. }),
        _ => false,
    }
}

fn is_dir(event: &Event) -> bool
    ensures { result ≡ is_dir event.now }
{
    match event {
        Event::Dir { .. } => true,
        Event::Req { op, .. } => matches!(op, ReqOp::Mkdir { .. }),
        _ => false,
    }
}
