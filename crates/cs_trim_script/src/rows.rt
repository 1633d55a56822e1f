//! Worked runs, and lines that spell no event. The functions do nothing: each is there for its contract.
ghost use Rattle.std.specs.Prelude.{◌≡◌, Ok};
ghost use Rattle.cs_trim_script.specs.BadLines.{AreRefused, lines};
ghost use Rattle.cs_trim_script.specs.Grammar.{script_of};
ghost use Rattle.cs_trim_script.specs.Journal.{text, trim_journal};
ghost use Rattle.cs_trim_script.specs.RefusedSnapshots as refused;
ghost use Rattle.cs_trim_script.specs.TrimmedBetween as between;

/// A snapshot is removed, and a trim gives up the clone that served it alone. The other clone serves two
/// snapshots, and stays while the older one stands.
pub fn trimmed_between()
    ensures read { script_of between.input ≡ Ok between.events_read }
    ensures written { text (trim_journal between.events_read) ≡ between.written }
{}

/// Numbers that are no snapshot's, or whose snapshot is gone; and an object that wasn't written by a
/// snapshot, of which a write makes no clone.
pub fn refused_snapshots()
    ensures read { script_of refused.input ≡ Ok refused.events_read }
    ensures written { text (trim_journal refused.events_read) ≡ refused.written }
{}

/// Lines that spell no event, each with what is wrong with it.
pub fn bad_lines()
    ensures { AreRefused lines }
{}
