// What objects hold.
ghost use Rattle.std.specs.Prelude.{ℕ, List};
ghost use Rattle.cs_laws.specs.declared.answers.Entry.{Entry};
ghost use Rattle.cs_laws.specs.Runs.{IsRun};
ghost use Rattle.cs_theorems.specs.Contents.{ObjectsHoldWrites, StatesHoldWrites};

/// At each state, a snapshot's or the head, the operations on a file's objects that belong to it leave
/// the bytes of the writes that belong to it. What belongs to a state is told by a test of the seqs, so
/// that snapshots and head are one case.
pub fn objects_hold_the_writes()
    ensures { (pages : ℕ) (h : List Entry) → IsRun pages h → ObjectsHoldWrites h }
{}

/// At each snapshot a file's objects hold the bytes of the writes whose tags are below the snapshot's
/// number, and at the head those of all writes.
pub fn states_hold_the_writes()
    ensures { (pages : ℕ) (h : List Entry) → IsRun pages h → StatesHoldWrites h }
{}
