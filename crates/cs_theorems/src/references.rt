// Laws of references.
ghost use Rattle.std.specs.Prelude.{ℕ, List};
ghost use Rattle.cs_laws.specs.declared.answers.Entry.{Entry};
ghost use Rattle.cs_laws.specs.Laws.{UsesAreIssued};
ghost use Rattle.cs_laws.specs.Runs.{IsRun};
ghost use Rattle.cs_theorems.specs.References.{LiveWereIssued, NumbersAreDrawnOnce};

/// Each write, each read and each change of mode that is answered as done is on a reference that lives
/// then, of its caller or of caller 0, that has the right to it, and all whose bits were issued when it
/// began.
pub fn uses_are_issued()
    ensures { (pages : ℕ) (h : List Entry) → IsRun pages h → UsesAreIssued h }
{}

/// Each live reference began at an entry of the journal, with its caller, number, file, bits and end,
/// and the bits were then within the file's issued bits.
pub fn live_references_were_issued()
    ensures { (pages : ℕ) (h : List Entry) → IsRun pages h → LiveWereIssued h }
{}

/// No caller draws the number of a reference a second time.
pub fn numbers_are_drawn_once()
    ensures { (pages : ℕ) (h : List Entry) → IsRun pages h → NumbersAreDrawnOnce h }
{}
