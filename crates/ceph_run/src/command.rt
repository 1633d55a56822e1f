// The command line.
ghost use Rattle.std.specs.Prelude.{◌≡◌, ◌⊎◌, ℕ, [], Some, None};
ghost use Rattle.cs_command.specs.Words.{asked, texts_of};
ghost use Rattle.cs_command.specs.declared.command.Command.TheVariants.{Run, Trim};
ghost use Rattle.cs_run.specs.Served.{Served};
ghost use Rattle.cs_status.specs.Writes.{Writes, usage_line};
ghost use Rattle.cs_trim_run.specs.TrimServed.{TrimServed};

use cs_command::{Command, WordsFault, read_command};
use cs_io::{Sink, Source};
use cs_mdslog::MdsLog;
use cs_objstore::ObjStore;
use cs_run::serve_run;
use cs_status::{Finished, tell_usage};
use cs_trim_run::serve_trim;
use std::alloc::Global;

/// Does all that the program does. The words are those behind the program's name. The commands are
/// `run`, with the option `--pages P`, and `trim`; faulty words are status 1, with a line that says so.
/// Nothing was applied to the store, and the log has no records. Both are handed back as [`serve_run`]
/// leaves them, and as they came at `trim` and where the words are faulty.
pub fn ceph_main<R, S: Source, K: Sink, O: ObjStore, L: MdsLog>(
    _rt: &R,
    alloc: Global,
    words: &[String],
    source: &mut S,
    sink: &mut K,
    store: O,
    log: L,
) -> Finished<O, L>
    requires store { O.ops store ≡ [] }
    requires log { L.records log ≡ [] }
    requires durable { L.durable log ≡ 0 }
    ensures served { (pages : ℕ) → asked (texts_of words.now) ≡ Some (Run pages) → Served pages result.status
        (record {
          left = S.left source.old;
          source_faults = S.faults source.old;
          taken = K.taken sink.old;
          sink_faults = K.faults sink.old;
          held = record { ops = O.ops store; records = L.records log; durable = L.durable log };
          store_faults = O.faults store;
          log_faults = L.faults log;
        })
        (record {
          left = S.left source.new;
          source_faults = S.faults source.new;
          taken = K.taken sink.new;
          sink_faults = K.faults sink.new;
          held = record { ops = O.ops result.store; records = L.records result.log; durable = L.durable result.log };
          store_faults = O.faults result.store;
          log_faults = L.faults result.log;
        }) }
    ensures trimmed { asked (texts_of words.now) ≡ Some Trim → TrimServed result.status
        (record {
          left = S.left source.old;
          source_faults = S.faults source.old;
          taken = K.taken sink.old;
          sink_faults = K.faults sink.old;
        })
        (record {
          left = S.left source.new;
          source_faults = S.faults source.new;
          taken = K.taken sink.new;
          sink_faults = K.faults sink.new;
        }) }
    // Status 1, unless the writing of the usage line stopped. The source stays as it was.
    ensures usage { asked (texts_of words.now) ≡ None → Writes 1 result.status usage_line
        (K.taken sink.old) (K.taken sink.new) (K.faults sink.old) (K.faults sink.new) }
    ensures unread { asked (texts_of words.now) ≡ None → source.new ≡ source.old }
    ensures untouched { (asked (texts_of words.now) ≡ None) ⊎ (asked (texts_of words.now) ≡ Some Trim)
        → (result.store ≡ store) × (result.log ≡ log) }
    // No event was done.
    ensures unrun { (result.status ≡ 2) ⊎ ((result.status ≡ 3) ⊎ (result.status ≡ 4))
        → (result.store ≡ store) × (result.log ≡ log) }
{
    match read_command(alloc, words) {
        Ok(Command::Run { pages }) => serve_run(alloc, pages, source, sink, store, log),
        Ok(Command::Trim) => serve_trim(alloc, source, sink, store, log),
        Err(WordsFault::Usage) => Finished {
            status: tell_usage(sink),
            store,
            log,
        },
        Err(WordsFault::Memory) => Finished {
            status: 8,
            store,
            log,
        },
    }
}
