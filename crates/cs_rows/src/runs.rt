// Scripts with their events and their journals.
ghost use Rattle.std.specs.Prelude.{◌≡◌, Ok};
ghost use Rattle.cs_laws.specs.declared.answers.Why.TheVariants as why;
ghost use Rattle.cs_laws.specs.declared.answers.Answer.TheVariants as answers;
ghost use Rattle.cs_laws.specs.Grammar.{script_of};
ghost use Rattle.cs_laws.specs.History.{context, sent};
ghost use Rattle.cs_laws.specs.Journal.{journal, text};
ghost use Rattle.cs_laws.specs.Operations.{applied};
ghost use Rattle.cs_rows.specs.AfterASnapshot as after;
ghost use Rattle.cs_rows.specs.CleanFile as clean;
ghost use Rattle.cs_rows.specs.CreateAndLookup as made;
ghost use Rattle.cs_rows.specs.Delivered as delivered;
ghost use Rattle.cs_rows.specs.EmptyScript as empty;
ghost use Rattle.cs_rows.specs.FullTable as full;
ghost use Rattle.cs_rows.specs.HeadFlush as head;
ghost use Rattle.cs_rows.specs.HoldThenAck as held;
ghost use Rattle.cs_rows.specs.LastByte as last;
ghost use Rattle.cs_rows.specs.LaterWrites as later;
ghost use Rattle.cs_rows.specs.Leases as leased;
ghost use Rattle.cs_rows.specs.OneCapSnap as shared;
ghost use Rattle.cs_rows.specs.RealmBehindASnapshot as behind_one;
ghost use Rattle.cs_rows.specs.RealmBetween as between;
ghost use Rattle.cs_rows.specs.Realms as trees;
ghost use Rattle.cs_rows.specs.RefusedEvents as refused;
ghost use Rattle.cs_rows.specs.TwoObjects as crossing;
ghost use Rattle.cs_rows.specs.UnderAWriter as under;
ghost use Rattle.cs_rows.specs.WriteAfterSnapshot as behind;

/// A header alone: an empty journal.
pub fn empty_script()
    ensures read { script_of empty.input ≡ Ok empty.events_read }
    ensures written { text (journal 256 empty.events_read) ≡ empty.written }
{}

/// The first run: a revocation is held while a reference uses its bits, then acknowledged.
pub fn hold_then_ack()
    ensures read { script_of held.input ≡ Ok held.events_read }
    ensures written { text (journal 256 held.events_read) ≡ held.written }
{}

/// The same, with the acknowledgement delivered to the server, which then takes no more for held.
pub fn hold_then_ack_delivered()
    ensures read { script_of delivered.input ≡ Ok delivered.events_read }
    ensures written { text (journal 256 delivered.events_read) ≡ delivered.written }
{}

/// After 256 live references the next one finds the table full.
pub fn full_table()
    ensures { full.last_answer (journal 256 full.events_read) ≡ answers.Full }
{}

/// A write of the last byte. Where the file may have one byte less, no reference to it begins.
pub fn last_byte()
    ensures read { script_of last.input ≡ Ok last.events_read }
    ensures written { text (journal 256 last.events_read) ≡ last.written }
    ensures beyond { full.last_answer (journal 256 (last.begun_under 1048575)) ≡ answers.Again why.Max }
{}

/// A write that touches two objects brings an operation to each.
pub fn two_objects()
    ensures { applied (journal 256 crossing.events_read) ≡ crossing.stored }
{}

/// A snapshot while a writer lives: no other writer begins, the first one still writes, and the flush
/// that is sent once it has ended has what it wrote. The snapshot is pending until that flush is known
/// to be durable, and then reads back as all that this writer wrote.
pub fn under_a_writer()
    ensures read { script_of under.input ≡ Ok under.events_read }
    ensures written { text (journal 256 under.events_read) ≡ under.written }
    ensures flushed { sent (journal 256 under.events_read) ≡ under.flushed }
{}

/// A later writer changes nothing in the snapshot. The head is pending then, until the flush of what that
/// writer left is known to be durable.
pub fn later_writes()
    ensures read { script_of later.input ≡ Ok later.events_read }
    ensures written { text (journal 256 later.events_read) ≡ later.written }
    ensures flushed { sent (journal 256 later.events_read) ≡ later.flushed }
{}

/// What was written is flushed before the snapshot, which so makes no cap snap, and reads back from that
/// flush.
pub fn clean_file_at_snapshot()
    ensures read { script_of clean.input ≡ Ok clean.events_read }
    ensures written { text (journal 256 clean.events_read) ≡ clean.written }
    ensures flushed { sent (journal 256 clean.events_read) ≡ clean.flushed }
{}

/// The head is flushed before an older cap snap, and each snapshot reads back with its own size. The
/// flush leaves nothing dirty, so that a later snapshot makes no cap snap.
pub fn head_flush_before_cap_snap()
    ensures read { script_of head.input ≡ Ok head.events_read }
    ensures written { text (journal 256 head.events_read) ≡ head.written }
    ensures flushed { sent (journal 256 head.events_read) ≡ head.flushed }
{}

/// Events that find no right, no reference, nothing dirty, nothing to acknowledge or a later time; and a
/// mode that is changed, and flushed.
pub fn refused_events()
    ensures read { script_of refused.input ≡ Ok refused.events_read }
    ensures written { text (journal 256 refused.events_read) ≡ refused.written }
    ensures flushed { sent (journal 256 refused.events_read) ≡ refused.flushed }
{}

/// Two snapshots while a writer lives: the second makes no cap snap, since the first one's is writing.
/// Both read back the same.
pub fn one_cap_snap()
    ensures read { script_of shared.input ≡ Ok shared.events_read }
    ensures written { text (journal 256 shared.events_read) ≡ shared.written }
    ensures flushed { sent (journal 256 shared.events_read) ≡ shared.flushed }
{}

/// A write on a reference that began after two snapshots were told brings an operation whose context
/// has both.
pub fn after_a_snapshot()
    ensures { applied (journal 256 after.events_read) ≡ after.stored }
{}

/// A write after a snapshot of an empty file: the snapshot reads back as empty, and the store has the
/// one operation of the write.
pub fn write_after_a_snapshot()
    ensures read { script_of behind.input ≡ Ok behind.events_read }
    ensures written { text (journal 256 behind.events_read) ≡ behind.written }
    ensures stored { applied (journal 256 behind.events_read) ≡ behind.stored }
{}

/// Two realms. A snapshot covers the files in its directory and below, and none beside it. Once it is
/// removed it shows nothing more, and the context of the file in it has the root's snapshot alone.
pub fn realms()
    ensures read { script_of trees.input ≡ Ok trees.events_read }
    ensures written { text (journal 256 trees.events_read) ≡ trees.written }
    ensures covered { context (journal 256 trees.events_read) 100 ≡ trees.at_end }
{}

/// A realm appears between another one and the root. Its snapshot covers the files of both, and each
/// gets a cap snap that follows its own context.
pub fn realm_between()
    ensures read { script_of between.input ≡ Ok between.events_read }
    ensures written { text (journal 256 between.events_read) ≡ between.written }
    ensures covered { context (journal 256 between.events_read) 100 ≡ between.at_end }
{}

/// A request makes a file. Its answer, which isn't durable yet, gives the client a lease on the name.
pub fn create_and_lookup()
    ensures read { script_of made.input ≡ Ok made.events_read }
    ensures written { text (journal 256 made.events_read) ≡ made.written }
{}

/// A lease expires, and its name is looked up by a request, which ends it and whose answer gives another
/// one. The server ends that.
pub fn leases()
    ensures read { script_of leased.input ≡ Ok leased.events_read }
    ensures written { text (journal 256 leased.events_read) ≡ leased.written }
{}

/// A directory is made behind a snapshot of the root, which covers the file in it as long as the directory
/// is no realm. Once a snapshot makes it one, it was made too late for the first.
pub fn realm_behind_a_snapshot()
    ensures read { script_of behind_one.input ≡ Ok behind_one.events_read }
    ensures written { text (journal 256 behind_one.events_read) ≡ behind_one.written }
{}
