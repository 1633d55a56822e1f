// Reads the input of a trim and judges it.
ghost use Rattle.std.specs.Prelude.{◌≤◌, IfOk, IsErrOf};
ghost use Rattle.cs_ids.specs.Devices.{Rose};
ghost use Rattle.cs_trim_run.specs.Inputs.{JudgesScript, JudgesWhole, IsWithinLimit};

use cs_ids::Memory;
use cs_io::{ReadAll, ReadFault, Source, read_all};
use cs_status::{MOST_BYTES, MOST_EVENTS, Refusal};
use cs_trim_script::{ParseFault, Script, parse};
use std::alloc::Global;

/// What the input of a trim is.
#[derive(Drop)]
pub enum Input {
    /// It isn't run.
    Refused(Refusal),
    /// It is a script within the limits.
    Runs(Script),
}

/// Reads the input to its end, unless it is too long, and judges it.
pub fn read_input<S: Source>(alloc: Global, source: &mut S) -> Result<Input, ReadFault>
    ensures ok { IfOk result (JudgesWhole (S.left source.old) (S.left source.new)) }
    ensures few { IfOk result IsWithinLimit }
    ensures failed { IsErrOf result ReadFault.Failed → Rose (S.faults source.old) (S.faults source.new) }
{
    match read_all(alloc, source, MOST_BYTES)? {
        ReadAll::TooLong => Ok(Input::Refused(Refusal::TooLong)),
        ReadAll::All(bytes) => Ok(judge(alloc, bytes.as_slice())?),
    }
}

// Judges an input that isn't too long.
fn judge(alloc: Global, bytes: &[u8]) -> Result<Input, Memory>
    ensures judged { IfOk result (JudgesScript bytes.now) }
    ensures few { IfOk result IsWithinLimit }
{
    match parse(alloc, bytes) {
        Err(ParseFault::Memory) => Err(Memory),
        Err(ParseFault::Fault(fault)) => Ok(Input::Refused(Refusal::Faulty(fault))),
        Ok(script) => {
            if script.len() > MOST_EVENTS {
                Ok(Input::Refused(Refusal::TooManyEvents))
            } else {
                Ok(Input::Runs(script))
            }
        }
    }
}
