// The laws together.
ghost use Rattle.std.specs.Prelude.{ℕ, List};
ghost use Rattle.cs_laws.specs.declared.answers.Entry.{Entry};
ghost use Rattle.cs_laws.specs.Laws.{Laws};
ghost use Rattle.cs_laws.specs.Runs.{IsRun};

/// All laws hold of every run.
pub fn runs_are_lawful()
    ensures { (pages : ℕ) (h : List Entry) → IsRun pages h → Laws h }
{}
