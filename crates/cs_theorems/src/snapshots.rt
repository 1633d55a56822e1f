// Laws of snapshot contexts, tags and cap snaps.
ghost use Rattle.std.specs.Prelude.{ℕ, List, ◌++◌};
ghost use Rattle.cs_laws.specs.declared.answers.Entry.{Entry};
ghost use Rattle.cs_laws.specs.Runs.{IsRun};
ghost use Rattle.cs_theorems.specs.Contexts.{ContextsNeverFall, OneContextForEachSeq};
ghost use Rattle.cs_theorems.specs.Realms.{NextTellsKnownParents};
ghost use Rattle.cs_theorems.specs.Snapshots.{FinishedSnapsAreNotWritten, FinishedSnapsKeepTheirWrites, OnlyTheLastIsWriting, QueuesRise, TagsAreOfTheBegin, TagsNeverFall, WritersShareAContext, WritersShareATag, WritingWhileOlder};

/// At each entry the context of a file that the client knows stays, or its seq rises.
pub fn contexts_never_fall()
    ensures { (pages : ℕ) (h : List Entry) → IsRun pages h → ContextsNeverFall h }
{}

/// Two contexts that a file had, each after some part of the run, are the same if their seqs are.
pub fn one_context_for_each_seq()
    ensures { (pages : ℕ) (h : List Entry) → IsRun pages h → OneContextForEachSeq h }
{}

/// Each realm record that the client is told names a parent that the client knows when its turn comes,
/// or none.
pub fn told_parents_are_known()
    ensures { (pages : ℕ) (h : List Entry) → IsRun pages h → NextTellsKnownParents h }
{}

/// Each live reference's tag is the seq of the context that its file had when it began.
pub fn tags_are_of_the_begin()
    ensures { (pages : ℕ) (h : List Entry) → IsRun pages h → TagsAreOfTheBegin h }
{}

/// All writers of a file that live at one moment have the same tag: the number that the writing cap
/// snap follows, or, where none is writing, the seq of the file's context.
pub fn writers_share_a_tag()
    ensures { (pages : ℕ) (h : List Entry) → IsRun pages h → WritersShareATag h }
{}

/// Each writer of a file began under the file's present context, or under one whose seq the writing
/// cap snap follows.
pub fn writers_share_a_context()
    ensures { (pages : ℕ) (h : List Entry) → IsRun pages h → WritersShareAContext h }
{}

/// A file's writes have tags that never fall.
pub fn tags_never_fall()
    ensures { (pages : ℕ) (h : List Entry) → IsRun pages h → TagsNeverFall h }
{}

/// The cap snaps of a file that aren't sent follow numbers that rise, all of them below the seq of
/// the file's context.
pub fn follows_rise()
    ensures { (pages : ℕ) (h : List Entry) → IsRun pages h → QueuesRise h }
{}

/// A cap snap that isn't sent is writing exactly while a writer of its file lives whose tag is at
/// most the number that it follows.
pub fn writing_while_an_older_writer_lives()
    ensures { (pages : ℕ) (h : List Entry) → IsRun pages h → WritingWhileOlder h }
{}

/// Of the cap snaps of a file that aren't sent none but the last is writing.
pub fn only_the_last_is_writing()
    ensures { (pages : ℕ) (h : List Entry) → IsRun pages h → OnlyTheLastIsWriting h }
{}

/// Where a cap snap that isn't sent has ceased to be writing, every writer of its file has a tag above
/// the number that it follows.
pub fn finished_snaps_are_not_written()
    ensures { (pages : ℕ) (h : List Entry) → IsRun pages h → FinishedSnapsAreNotWritten h }
{}

/// From then on, whatever events follow, the file's writes with a tag up to that number stay as they
/// are.
pub fn finished_snaps_keep_their_writes()
    ensures { (pages : ℕ) (h new : List Entry) → IsRun pages (new ++ h) → FinishedSnapsKeepTheirWrites h (new ++ h) }
{}
