// The server and its calls.
ghost use Rattle.std.specs.Prelude.{◌≡◌, ℕ, ◌+◌, ◌<◌, ◌≤◌, ◌++◌, ◌∷◌, [], true, false, None, length, nat_lt, IfOk, OnOk, OnErr, IsErrOf};
ghost use Rattle.std.specs.BTreeMap.{get};
ghost use Rattle.std.specs.Ordering.{nat_cmp};
ghost use Rattle.cs_laws.specs.declared.events.Event.TheVariants as events;
ghost use Rattle.cs_laws.specs.declared.messages.Message.TheVariants as messages;
ghost use Rattle.cs_laws.specs.Carried.{is_for_client};
ghost use Rattle.cs_laws.specs.Devices.{FaultsOf};
ghost use Rattle.cs_laws.specs.Events.{is_setup};
ghost use Rattle.cs_laws.specs.Fits.{fits};
ghost use Rattle.cs_laws.specs.Namespace.{no_names};
ghost use Rattle.cs_laws.specs.Spellings.{message_fits};
ghost use Rattle.cs_laws.specs.Standing.{greatest_number};
ghost use Rattle.cs_mds.specs.Answers.{committed_sent, message_answer, served_answer, served_sent, shown_of};
ghost use Rattle.cs_mds.specs.Served.{Halts, LogHolds, MessageHalts, Served, is_logged, is_message_logged};
ghost use Rattle.cs_mds.specs.Views.{IsWhole, caps_of, stand};

use crate::Shown;
use crate::caps::{acknowledge_in, grant_in, revoke_in};
use crate::commit::commit_in;
use crate::deliver::flush_in;
use crate::names::{list_in, unlease_in};
use crate::requests::request_in;
use crate::setup::{make_dir, make_file};
use crate::shown::shown_at;
use crate::snapshots::{remove_in, snap_in};
use cs_bits::Caps;
use cs_caps::Held;
use cs_ids::{Ino, Memory, Name, Snap};
use cs_laws::{Answer, At, Event, Message, MessageList, StepFault};
use cs_mdslog::MdsLog;
use cs_names::Names;
use cs_records::Records;
use cs_tree::Directories;
use std::alloc::Global;
use std::collections::BTreeMap;
use std::marker::Model;

/// The metadata server, after the CephFS documentation of the metadata server, its journal and its
/// snapshots: the directories and files that it knows, the names that stand, its end of each file's
/// capabilities, and the records of its log. A directory or a file that has no name any more is still
/// known.
///
/// A call that may append to the log or sync it is lent the log, which must hold the server's records.
/// After `StepFault::Log` server and log are as at entry. After want of memory the log is as at entry,
/// or as the call would have left it.
///
/// The server is whole where each directory that stands is known, and no directory or file has an inode
/// that requests are yet to draw. A new server is, and calls that succeed leave a whole server so; after
/// want of memory it may not be.
#[derive(Drop)]
pub struct Mds {
    alloc: Global,
    tree: Directories,
    // The directory in which each file was made.
    homes: BTreeMap<Ino, Ino>,
    names: Names,
    // A file without a row has no capabilities.
    caps: BTreeMap<Ino, Held>,
    records: Records,
}

impl Model for Mds {
    ghost use Rattle.std.specs.Coded.{codes};
    ghost use Rattle.std_collections.specs.Layout.BTreeMap.{btree_map_code};
    ghost use Rattle.cs_mds.specs.Views.{IsServer, ServerView};

    ghost Value = { ServerView };

    ghost coded = { Prim.hlevel (codes, btree_map_code) };

    ghost view = { λ m. record { tree = m.tree; homes = m.homes; names = m.names; caps = m.caps; durable = m.records.durable; fresh = m.records.fresh } };

    ghost invariant = { λ m. IsServer (record { tree = m.tree; homes = m.homes; names = m.names; caps = m.caps; durable = m.records.durable; fresh = m.records.fresh }) };
}

impl Mds {
    /// A server that knows the root alone, and has no records.
    pub fn new(alloc: Global) -> Result<Mds, Memory>
        ensures tree { IfOk result (λ m. m.tree ≡ record { ino = 1; path = 1 ∷ [] } ∷ []) }
        ensures homes { IfOk result (λ m. (f : ℕ) → get nat_cmp m.homes f ≡ None) }
        ensures names { IfOk result (λ m. m.names ≡ no_names) }
        ensures caps { IfOk result (λ m. (f : ℕ) → get nat_cmp m.caps f ≡ None) }
        ensures durable { IfOk result (λ m. m.durable ≡ []) }
        ensures fresh { IfOk result (λ m. m.fresh ≡ []) }
        ensures whole { IfOk result (λ m. IsWhole m) }
    {
        Ok(Mds {
            alloc,
            tree: Directories::new(alloc)?,
            homes: BTreeMap::new(alloc),
            names: Names::new(alloc)?,
            caps: BTreeMap::new(alloc),
            records: Records::new(alloc),
        })
    }

    /// Takes a `dir` or a `file` line: the directory or file stands in its parent before all records,
    /// under the letter d or f and its number. A script gives it inode 2 to 9,999. It answers `Exists`
    /// where the inode is in use, `NoDir` where the parent is no directory, and else `Made`. After
    /// `Memory` the directory or file may be known, and have no name; all else is as before.
    pub fn setup(&mut self, event: &Event) -> Result<Answer, Memory>
        requires setup { is_setup event.now ≡ true }
        requires fits { fits event.now ≡ true }
        requires first { stand self.old ≡ [] }
        ensures answer { IfOk result (λ a. a ≡ served_answer self.old event.now) }
        ensures after { IfOk result (λ a. Served [] self.old self.new event.now a) }
        ensures whole { IsWhole self.old → OnOk result (IsWhole self.new) }
        ensures err { OnErr result (self.new ≡ record self.old { tree = self.new.tree; homes = self.new.homes }) }
    {
        match event {
            Event::Dir { dir, parent } => Ok(self.dir(*dir, *parent)?),
            Event::File { file, parent } => Ok(self.file(*file, *parent)?),
            _ => unreachable!(),
        }
    }

    fn dir(&mut self, dir: Ino, parent: Ino) -> Result<Answer, Memory>
        requires least { 2 ≤ dir }
        requires greatest { dir ≤ 9999 }
        requires first { stand self.old ≡ [] }
        ensures answer { IfOk result (λ a. a ≡ served_answer self.old (events.Dir dir parent)) }
        ensures after { IfOk result (λ a. Served [] self.old self.new (events.Dir dir parent) a) }
        ensures whole { IsWhole self.old → OnOk result (IsWhole self.new) }
        ensures err { OnErr result (self.new ≡ record self.old { tree = self.new.tree; homes = self.new.homes }) }
    {
        make_dir(&mut self.tree, &self.homes, &mut self.names, dir, parent)
    }

    fn file(&mut self, file: Ino, parent: Ino) -> Result<Answer, Memory>
        requires least { 2 ≤ file }
        requires greatest { file ≤ 9999 }
        requires first { stand self.old ≡ [] }
        ensures answer { IfOk result (λ a. a ≡ served_answer self.old (events.File file parent)) }
        ensures after { IfOk result (λ a. Served [] self.old self.new (events.File file parent) a) }
        ensures whole { IsWhole self.old → OnOk result (IsWhole self.new) }
        ensures err { OnErr result (self.new ≡ record self.old { tree = self.new.tree; homes = self.new.homes }) }
    {
        make_file(&self.tree, &mut self.homes, &mut self.names, file, parent)
    }

    /// Grants the client bits of a file, with a greatest end of a write in bytes, and sends it what it
    /// may have from now on. The last message of the file has a number below 99,998. It answers
    /// `SentCap`, or `Unknown` where it doesn't know the file. After `Memory` the bits may be granted
    /// and not sent.
    pub fn grant(
        &mut self,
        file: Ino,
        bits: Caps,
        max: u32,
        out: &mut MessageList,
    ) -> Result<Answer, Memory>
        requires { (caps_of file self.old.caps).seq < 99998 }
        ensures answer { IfOk result (λ a. a ≡ served_answer self.old (events.Grant file bits max)) }
        ensures after { IfOk result (λ a. Served [] self.old self.new (events.Grant file bits max) a) }
        ensures whole { IsWhole self.old → IsWhole self.new }
        ensures sent { IfOk result (λ a. out.new ≡ out.old ++ served_sent (events.Grant file bits max) a self.old.caps self.old.durable) }
    {
        grant_in(&self.homes, &mut self.caps, file, bits, max, out)
    }

    /// Takes bits of a file back from the client, and sends it what it may have from now on. The last
    /// message of the file has a number below 99,998. It answers `SentCap`, or `Unknown` where it
    /// doesn't know the file. After `Memory` the bits may be taken back and nothing sent.
    pub fn revoke(&mut self, file: Ino, bits: Caps, out: &mut MessageList) -> Result<Answer, Memory>
        requires { (caps_of file self.old.caps).seq < 99998 }
        ensures answer { IfOk result (λ a. a ≡ served_answer self.old (events.Revoke file bits)) }
        ensures after { IfOk result (λ a. Served [] self.old self.new (events.Revoke file bits) a) }
        ensures whole { IsWhole self.old → IsWhole self.new }
        ensures sent { IfOk result (λ a. out.new ≡ out.old ++ served_sent (events.Revoke file bits) a self.old.caps self.old.durable) }
    {
        revoke_in(&self.homes, &mut self.caps, file, bits, out)
    }

    /// Whether one more snapshot or removal can draw its number, which is at most 99,998. It takes no
    /// memory.
    pub fn has_room(&self) -> bool
        ensures { result ≡ nat_lt (greatest_number (stand self.now)) 99998 }
    {
        self.records.has_room()
    }

    /// Takes a snapshot of a directory under a name, and appends its record. The numbers that
    /// snapshots and removals drew are below 99,998. It answers `Snap` with the next number, `Unknown`
    /// where no such directory stands, and `Exists` where one of its snapshots that isn't removed has
    /// the name. After a fault the server is as at entry.
    pub fn snap<L: MdsLog>(
        &mut self,
        dir: Ino,
        name: &Name,
        log: &mut L,
    ) -> Result<Answer, StepFault>
        requires numbers { greatest_number (stand self.old) < 99998 }
        requires log { LogHolds (L.records log.old) (L.durable log.old) self.old }
        ensures answer { IfOk result (λ a. a ≡ served_answer self.old (events.Snap dir name.now)) }
        ensures after { IfOk result (λ a. Served [] self.old self.new (events.Snap dir name.now) a) }
        ensures whole { IsWhole self.old → IsWhole self.new }
        ensures same { OnErr result (self.new ≡ self.old) }
        ensures log { OnOk result (LogHolds (L.records log.new) (L.durable log.new) self.new) }
        ensures halted { OnErr result (Halts (L.records log.new) (L.durable log.new) self.old (events.Snap dir name.now)) }
        ensures faults { FaultsOf StepFault.Log (is_logged self.old (events.Snap dir name.now)) (L.faults log.old) (L.faults log.new) result }
        ensures kept { is_logged self.old (events.Snap dir name.now) ≡ false → log.new ≡ log.old }
        ensures unstored { IsErrOf result StepFault.Store → ⊥ }
    {
        snap_in(self.alloc, &self.names, &mut self.records, dir, name, log)
    }

    /// Removes a snapshot, which counts from 1, and appends the record of that. The numbers that
    /// snapshots and removals drew are below 99,998. It answers `Removed` with the next number,
    /// `NoSnap` where no such snapshot was taken, and `Gone` where it is removed. After a fault the
    /// server is as at entry.
    pub fn remove_snap<L: MdsLog>(&mut self, snap: Snap, log: &mut L) -> Result<Answer, StepFault>
        requires fits { fits (events.RmSnap snap) ≡ true }
        requires numbers { greatest_number (stand self.old) < 99998 }
        requires log { LogHolds (L.records log.old) (L.durable log.old) self.old }
        ensures answer { IfOk result (λ a. a ≡ served_answer self.old (events.RmSnap snap)) }
        ensures after { IfOk result (λ a. Served [] self.old self.new (events.RmSnap snap) a) }
        ensures whole { IsWhole self.old → IsWhole self.new }
        ensures same { OnErr result (self.new ≡ self.old) }
        ensures log { OnOk result (LogHolds (L.records log.new) (L.durable log.new) self.new) }
        ensures halted { OnErr result (Halts (L.records log.new) (L.durable log.new) self.old (events.RmSnap snap)) }
        ensures faults { FaultsOf StepFault.Log (is_logged self.old (events.RmSnap snap)) (L.faults log.old) (L.faults log.new) result }
        ensures kept { is_logged self.old (events.RmSnap snap) ≡ false → log.new ≡ log.old }
        ensures unstored { IsErrOf result StepFault.Store → ⊥ }
    {
        remove_in(self.alloc, &mut self.records, snap, log)
    }

    /// Tells the client that its lease on a name in a directory ends, be there such an entry or not. It
    /// answers `SentUnlease`, or `Unknown` where no such directory stands. After `Memory` nothing is sent.
    pub fn unlease(&self, dir: Ino, name: &Name, out: &mut MessageList) -> Result<Answer, Memory>
        ensures answer { IfOk result (λ a. a ≡ served_answer self.now (events.Unlease dir name.now)) }
        ensures sent { IfOk result (λ a. out.new ≡ out.old ++ served_sent (events.Unlease dir name.now) a self.now.caps self.now.durable) }
        ensures err { OnErr result (out.new ≡ out.old) }
    {
        unlease_in(self.alloc, &self.names, dir, name, out)
    }

    /// Answers with the names in a directory and their inodes, in the order of the names' bytes, or with
    /// `Unknown` where no such directory stands.
    pub fn names(&self, dir: Ino) -> Result<Answer, Memory>
        ensures { IfOk result (λ a. a ≡ served_answer self.now (events.Names dir)) }
    {
        list_in(&self.names, dir)
    }

    /// Takes a message of the client. It answers `CapAck` to an acknowledgement, with what it takes for
    /// held from now on. A flush whose number is above those of its file's that stand is recorded and
    /// answered `Flushed`; another one came again: it is answered `FlushDup`, and acknowledged at once
    /// where its record is durable.
    ///
    /// A request whose number is above those that stand is recorded with its answer, be it a refusal or
    /// a look-up, and done; the client is sent the answer, and the event answered `Req`. Another one came
    /// again, and isn't done: it is answered `ReqDup` with the answer with which it stands, which is
    /// sent once more, and with it that the record is durable, where it is. Requests may draw inodes up
    /// to 99,998.
    ///
    /// After `Memory` no more records are durable than before. The message's record may stand; of a
    /// request, what it makes may be known, its operation may be done, and the client may be sent a
    /// part of the messages.
    pub fn step_message<L: MdsLog>(
        &mut self,
        message: &Message,
        log: &mut L,
        out: &mut MessageList,
    ) -> Result<Answer, StepFault>
        requires kind { is_for_client message.now ≡ false }
        requires fits { message_fits message.now ≡ true }
        requires room { self.old.names.made < 89999 }
        requires whole { IsWhole self.old }
        requires log { LogHolds (L.records log.old) (L.durable log.old) self.old }
        ensures answer { IfOk result (λ a. a ≡ message_answer self.old message.now) }
        ensures after { IfOk result (λ a. Served (message.now ∷ []) self.old self.new events.ToMds a) }
        ensures whole { OnOk result (IsWhole self.new) }
        ensures made { self.new.names.made ≤ self.old.names.made + 1 }
        ensures sent { IfOk result (λ a. out.new ≡ out.old ++ served_sent events.ToMds a self.old.caps self.old.durable) }
        ensures err { OnErr result (self.new.durable ≡ self.old.durable) }
        ensures same { IsErrOf result StepFault.Log → self.new ≡ self.old }
        ensures log { OnOk result (LogHolds (L.records log.new) (L.durable log.new) self.new) }
        ensures halted { OnErr result (MessageHalts (L.records log.new) (L.durable log.new) self.old message.now) }
        ensures faults { FaultsOf StepFault.Log (is_message_logged self.old message.now) (L.faults log.old) (L.faults log.new) result }
        ensures kept { is_message_logged self.old message.now ≡ false → log.new ≡ log.old }
        ensures unstored { IsErrOf result StepFault.Store → ⊥ }
    {
        match message {
            Message::CapAck { file, seq, bits } => {
                Ok(acknowledge_in(&mut self.caps, *file, *seq, *bits)?)
            }
            Message::Flush {
                file,
                tid,
                follows,
                meta,
            } => {
                let (file, tid, follows, meta) = (*file, *tid, *follows, *meta);
                let records = &mut self.records;
                Ok(flush_in(
                    self.alloc, records, false, file, tid, follows, meta, log, out,
                )?)
            }
            Message::FlushSnap {
                file,
                tid,
                follows,
                meta,
            } => {
                let (file, tid, follows, meta) = (*file, *tid, *follows, *meta);
                let records = &mut self.records;
                Ok(flush_in(
                    self.alloc, records, true, file, tid, follows, meta, log, out,
                )?)
            }
            Message::Req { tid, ino, op } => Ok(request_in(
                self.alloc,
                &mut self.tree,
                &mut self.homes,
                &mut self.names,
                &mut self.records,
                *tid,
                *ino,
                op,
                log,
                out,
            )?),
            Message::Cap { .. }
            | Message::Unsafe { .. }
            | Message::Safe { .. }
            | Message::FlushAck { .. }
            | Message::Snap { .. }
            | Message::Unlease { .. } => unreachable!(),
        }
    }

    /// Makes all records durable by one sync of the log, and none where all are. Where messages are
    /// sent, it tells the client of each that wasn't durable. These are fewer than 10,000. All records
    /// stand as before. After `Memory` the log is synced, and the server takes a front of them for
    /// durable, of each of which the client may be told.
    pub fn commit<L: MdsLog>(
        &mut self,
        sending: bool,
        log: &mut L,
        out: &mut MessageList,
    ) -> Result<Answer, StepFault>
        requires few { length self.old.fresh < 10000 }
        requires log { LogHolds (L.records log.old) (L.durable log.old) self.old }
        ensures answer { IfOk result (λ a. a ≡ served_answer self.old events.Commit) }
        ensures after { IfOk result (λ a. Served [] self.old self.new events.Commit a) }
        ensures whole { IsWhole self.old → IsWhole self.new }
        ensures sent { OnOk result (out.new ≡ out.old ++ committed_sent sending self.old) }
        ensures records { stand self.new ≡ stand self.old }
        ensures same { IsErrOf result StepFault.Log → self.new ≡ self.old }
        ensures log { OnOk result (LogHolds (L.records log.new) (L.durable log.new) self.new) }
        ensures halted { OnErr result (Halts (L.records log.new) (L.durable log.new) self.old events.Commit) }
        ensures faults { FaultsOf StepFault.Log (is_logged self.old events.Commit) (L.faults log.old) (L.faults log.new) result }
        ensures kept { is_logged self.old events.Commit ≡ false → log.new ≡ log.old }
        ensures unstored { IsErrOf result StepFault.Store → ⊥ }
    {
        commit_in(&self.tree, &mut self.records, sending, log, out)
    }

    /// What the server has of a file at a state, by all its records. It calls no device and takes no
    /// memory.
    pub fn shown(&self, file: Ino, at: At) -> Shown
        ensures { result ≡ shown_of self.now file at }
    {
        match self.homes.get(&file) {
            Some(home) => shown_at(&self.records, &self.tree, file, *home, at),
            None => Shown::Unknown,
        }
    }
}
