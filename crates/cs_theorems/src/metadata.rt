// Metadata, and what is read back with it.
ghost use Rattle.std.specs.Prelude.{ℕ, List};
ghost use Rattle.cs_laws.specs.declared.answers.Entry.{Entry};
ghost use Rattle.cs_laws.specs.Agreement.{StatesReadBack};
ghost use Rattle.cs_laws.specs.Operations.{applied};
ghost use Rattle.cs_laws.specs.Runs.{IsRun};
ghost use Rattle.cs_theorems.specs.Metadata.{MetadataIsOfTheWrites};

/// At each state of a file that isn't owed, a snapshot or the head, the metadata that the server's
/// records tell is the size and the time of the state's writes, with the mode that the file had then.
pub fn metadata_is_of_the_writes()
    ensures { (pages : ℕ) (h : List Entry) → IsRun pages h → MetadataIsOfTheWrites h }
{}

/// Each state of a file that stands and isn't owed reads back as exactly its writes: the records tell
/// their metadata, and the objects hold each byte that it counts.
pub fn states_read_back()
    ensures { (pages : ℕ) (h : List Entry) → IsRun pages h → StatesReadBack (applied h) h }
{}
