// Laws of flushes.
ghost use Rattle.std.specs.Prelude.{ℕ, List, ◌++◌};
ghost use Rattle.cs_laws.specs.declared.answers.Entry.{Entry};
ghost use Rattle.cs_laws.specs.Laws.{AckedStandOnce, FlushesStandOnce};
ghost use Rattle.cs_laws.specs.Runs.{IsRun};
ghost use Rattle.cs_theorems.specs.Flushes.{FlushesAreNumbered};

/// After each entry the standing flushes of a file have numbers that rise strictly, and a flush that
/// is acknowledged stands exactly once there and ever after. A flush is acknowledged by its own number
/// or, if it isn't that of a cap snap, by that of a later such flush of its file.
pub fn flushes_stand_once()
    ensures { (pages : ℕ) (h : List Entry) → IsRun pages h → FlushesStandOnce h }
{}

/// A flush that is acknowledged stands exactly once whatever entries follow.
pub fn acked_flushes_stay()
    ensures { (pages : ℕ) (h new : List Entry) → IsRun pages (new ++ h) → AckedStandOnce h (new ++ h) }
{}

/// Flushes are sent under the numbers 1, 2, 3, .. in order; none stands, and none is on its way to the
/// server, that wasn't sent.
pub fn flushes_are_numbered()
    ensures { (pages : ℕ) (h : List Entry) → IsRun pages h → FlushesAreNumbered h }
{}
