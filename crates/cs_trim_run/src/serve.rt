// Runs the script of a source.
ghost use Rattle.std.specs.Prelude.{◌≡◌};
ghost use Rattle.cs_status.specs.Writes.{Writes};
ghost use Rattle.cs_trim_run.specs.Inputs.{IsWithinLimit, output, status_of};
ghost use Rattle.cs_trim_run.specs.TrimServed.{TrimServed};

use crate::input::{Input, read_input};
use crate::journal::write_journal;
use cs_io::{Sink, Source};
use cs_mdslog::MdsLog;
use cs_objstore::ObjStore;
use cs_status::{Finished, read_status, refuse, write_status};
use std::alloc::Global;

/// Reads the whole input, parses it, does the events in order to a store of its own, which gives up
/// clones, and writes the journal as they are done. The store and the log that are handed in aren't
/// touched.
///
/// The status is 0 where all was written. An input that is no script is refused by a line of its own
/// with status 2, and one that exceeds a limit, 1,048,576 bytes or 10,000 events, with status 3. Where
/// the source fails the status is 4, where the sink fails 5, and 8 for want of memory.
pub fn serve_trim<S: Source, K: Sink, O: ObjStore, L: MdsLog>(
    alloc: Global,
    source: &mut S,
    sink: &mut K,
    store: O,
    log: L,
) -> Finished<O, L>
    ensures served { TrimServed result.status
        (record {
          left = S.left source.old;
          source_faults = S.faults source.old;
          taken = K.taken sink.old;
          sink_faults = K.faults sink.old;
        })
        (record {
          left = S.left source.new;
          source_faults = S.faults source.new;
          taken = K.taken sink.new;
          sink_faults = K.faults sink.new;
        }) }
    ensures untouched { (result.store ≡ store) × (result.log ≡ log) }
{
    match read_input(alloc, source) {
        Err(fault) => Finished {
            status: read_status(fault),
            store,
            log,
        },
        Ok(input) => Finished {
            status: serve_input(alloc, &input, sink),
            store,
            log,
        },
    }
}

// Runs the script that an input is, or refuses the input.
#[tactic(auto, using(cs_status::proofs::Writing::writes))]
fn serve_input<K: Sink>(alloc: Global, input: &Input, sink: &mut K) -> u8
    requires { IsWithinLimit input.now }
    ensures { Writes (status_of input.now) result (output input.now)
        (K.taken sink.old) (K.taken sink.new) (K.faults sink.old) (K.faults sink.new) }
{
    match input {
        Input::Refused(refusal) => refuse(alloc, refusal, sink),
        Input::Runs(script) => {
            let written = write_journal(alloc, script.events(), sink);
            write_status(0, &written)
        }
    }
}
