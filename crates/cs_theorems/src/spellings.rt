// What has a spelling in bytes.
ghost use Rattle.std.specs.Prelude.{ℕ, List};
ghost use Rattle.cs_laws.specs.declared.answers.Entry.{Entry};
ghost use Rattle.cs_laws.specs.Runs.{IsRun};
ghost use Rattle.cs_theorems.specs.Spellings.{MessagesFit, RecordsFit};

/// Each record that stands in the server's log fits: a flush tells of a size, a time and a mode that a
/// file may have, and the numbers of snapshots and removals count from 1.
pub fn records_fit()
    ensures { (pages : ℕ) (h : List Entry) → IsRun pages h → RecordsFit h }
{}

/// Each message on its way to the server fits: a flush as in the log, and an acknowledgement names only
/// capabilities that exist.
pub fn messages_fit()
    ensures { (pages : ℕ) (h : List Entry) → IsRun pages h → MessagesFit h }
{}
