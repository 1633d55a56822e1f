// One file's answers, after the CephFS documentation of capabilities and snapshots and the comments of
// Linux's fs/ceph/caps.c and fs/ceph/snap.c.
ghost use Rattle.std.specs.Prelude.{◌≡◌, ◌+◌, ◌-◌, ◌<◌, ◌≤◌, ◌++◌, ℕ, true, false, Some, None, length, min, take, IfOk, OnErr, OnOk};
ghost use Rattle.cs_caps.specs.Client.{completed};
ghost use Rattle.cs_capsnap.specs.CapSnaps.{is_writing};
ghost use Rattle.cs_laws.specs.Fits.{greatest_end, is_write, most_shown};
ghost use Rattle.cs_parts.specs.Capabilities.{delivered, restarted};
ghost use Rattle.cs_inode.specs.declared.answers.WriteStep.TheVariants as write;
ghost use Rattle.cs_inode.specs.Answers.{allowance, check_answer, chmod_answer, flush_answer, flush_snaps_answer, is_hold, is_wait};
ghost use Rattle.cs_inode.specs.Inodes.{after_ack, after_chmod, after_flush, after_flush_snaps, greatest_tid, has_any, has_flush_below, is_any_unacked, is_dirty, needs_snap, new_inode, owed, with_context, with_writer, without_writer, write_operations, written};
ghost use Rattle.cs_inode.specs.Reports.{ReportsUnacked};

use crate::operations::write_operations;
use crate::reports::merged;
use crate::{Allow, ChmodStep, FlushStep, SnapStep, WriteStep};
use cs_bits::Caps;
use cs_caps::{Cap, Done};
use cs_capsnap::{CapSnaps, Ready};
use cs_flush::{FlushReportList, Flushes, Sent};
use cs_ids::{Bytes, FileMeta, Ino, Memory, Seq, Snap, Tid};
use cs_snapctx::SnapContext;
use std::alloc::Global;
use std::marker::Model;
use std::mem;

/// The mode of a file that was made and not changed since: 0644.
pub const FIRST_MODE: u16 = 0o644;

/// What the client keeps of one file. No unacknowledged flush of the file has the number of one of a
/// cap snap.
#[derive(Drop)]
pub struct Inode {
    alloc: Global,
    ino: Ino,
    context: SnapContext,
    caps: Cap,
    snaps: CapSnaps,
    flushes: Flushes,
    meta: FileMeta,
    writers: u32,
}

impl Model for Inode {
    ghost use Rattle.cs_inode.specs.Inodes.{AreApart, FileInode};

    ghost Value = { FileInode };

    ghost view = { λ i. record { ino = i.ino; context = i.context; caps = i.caps; snaps = i.snaps; flushes = i.flushes; meta = i.meta; writers = i.writers } };

    ghost invariant = { λ i. AreApart i.flushes.unacked i.snaps };
}

impl Inode {
    /// A file of which nothing was issued, and to which nothing was written. Its mode is 0644. It takes
    /// no memory.
    pub fn new(alloc: Global, ino: Ino, ctx: SnapContext) -> Self
        ensures { result ≡ new_inode ino ctx }
    {
        Inode {
            alloc,
            ino,
            context: ctx,
            caps: Cap::new(),
            snaps: CapSnaps::new(alloc),
            flushes: Flushes::new(alloc),
            meta: FileMeta {
                size: 0,
                mtime: 0,
                mode: FIRST_MODE,
            },
            writers: 0,
        }
    }

    /// Whether a reference to these bits may begin, up to an end in bytes. `NoCaps` where a bit isn't
    /// issued; of one that may write, `Snap` while a cap snap is writing, and `Max` where its end is
    /// beyond the one that the server granted.
    pub fn allow(&self, bits: Caps, end: u32) -> Allow
        ensures { result ≡ allowance bits end self.now }
    {
        if !self.caps.issued().covers(bits) {
            return Allow::NoCaps;
        }
        if bits.has_write() && self.snaps.is_writing() {
            return Allow::Snap;
        }
        if bits.has_write() && self.caps.max() < end {
            return Allow::Max;
        }
        Allow::Yes {
            tag: self.context.seq(),
        }
    }

    /// A reference that may write has begun. At most 256 live at a time, and none begins while a cap
    /// snap is writing.
    pub fn start_writer(&mut self)
        requires written { is_writing self.old.snaps ≡ false }
        requires few { self.old.writers < 256 }
        ensures { self.new ≡ with_writer self.old }
    {
        self.writers += 1;
    }

    /// A reference that may write has ended. Where it was the last, a cap snap that is writing gets the
    /// file's size and mtime.
    #[tactic(auto, using(crate::proofs::Apart::apart_finished))]
    pub fn stop_writer(&mut self)
        requires { 1 ≤ self.old.writers }
        ensures { self.new ≡ without_writer self.old }
    {
        self.writers -= 1;
        if self.writers == 0 && self.snaps.is_writing() {
            self.snaps.finish(self.meta.size, self.meta.mtime);
        }
    }

    /// Writes 1 to 1,024 bytes from the offset `off` on, to an end of at most 1,048,576 bytes, at the time
    /// `now` in seconds, not `buffered` in pages: one operation for each object that they touch, in rising
    /// order, with numbers from `tid` on, which is below 99,999. They are made under the context of the cap
    /// snap that is writing, or else under the file's own. The size grows to the end, the mtime is `now`,
    /// and `Fw` is dirty. How many pages are free, `_free`, makes no difference. After `Memory` the file is
    /// as before.
    pub fn write(
        &mut self,
        buffered: bool,
        off: u32,
        bytes: &[u8],
        now: u64,
        _free: u32,
        tid: Tid,
    ) -> Result<WriteStep, Memory>
        requires direct { buffered ≡ false }
        requires fits { is_write off bytes.now ≡ true }
        requires number { tid < 99999 }
        ensures operations { IfOk result (λ s. s ≡ write.Direct (write_operations tid off bytes.now self.old)) }
        ensures after { OnOk result (self.new ≡ written (off + length bytes.now) now self.old) }
        ensures err { OnErr result (self.new ≡ self.old) }
    {
        prove!(!buffered);
        let context = self.snaps.writing_context().unwrap_or(&self.context);
        let ops = write_operations(self.alloc, context, tid, self.ino, off, bytes)?;
        let end = u64::from(off) + bytes.len() as u64;
        self.meta.size = end.max(self.meta.size);
        self.meta.mtime = now;
        self.flushes.dirty(Caps::FILE_WRITE);
        Ok(WriteStep::Direct(ops))
    }

    /// The size in bytes, as the client has written it.
    pub fn size(&self) -> u64
        ensures { result ≡ self.now.meta.size }
    {
        self.meta.size
    }

    /// Adds the bytes from the offset `off` on, below 1,048,576, to `out`: at most `len`, which is at most
    /// 4,096, and none past the file's size. `base` is what the store has there, in as many bytes as `len`
    /// and the greatest size of a file, 1,048,576, allow. After `Memory` `out` is as before.
    pub fn read(&self, off: u32, len: u32, base: &[u8], out: &mut Bytes) -> Result<(), Memory>
        requires within { off < greatest_end }
        requires few { len ≤ most_shown }
        requires base { length base.now ≡ min len (greatest_end - off) }
        ensures ok { OnOk result (out.new ≡ out.old ++ take (min len (self.now.meta.size - off)) base.now) }
        ensures err { OnErr result (out.new ≡ out.old) }
    {
        let left = self.meta.size.saturating_sub(u64::from(off));
        let count = u64::from(len).min(left) as usize;
        out.append(&base[..count.min(base.len())])
    }

    /// Sets the mode, whatever its bits, after which `Ax` is dirty. `Snap`, and nothing changes, while a
    /// cap snap is writing.
    pub fn chmod(&mut self, mode: u16) -> ChmodStep
        ensures answer { result ≡ chmod_answer self.old }
        ensures after { self.new ≡ after_chmod mode self.old }
    {
        if self.snaps.is_writing() {
            return ChmodStep::Snap;
        }
        self.meta.mode = mode;
        self.flushes.dirty(Caps::AUTH_EXCL);
        ChmodStep::Done
    }

    /// The file has another snapshot context from now on, with a greater `seq`. Whether a cap snap was
    /// made of the one before: where none is writing, and there is a writer or dirty metadata. After
    /// `Memory` the file has the context and no cap snap was made.
    pub fn new_context(&mut self, ctx: SnapContext) -> Result<bool, Memory>
        requires { self.old.context.seq < ctx.seq }
        ensures made { IfOk result (λ made. made ≡ needs_snap self.old) }
        ensures after { OnOk result (self.new ≡ with_context ctx self.old) }
        ensures err { OnErr result (self.new ≡ record self.old { context = ctx }) }
    {
        let has_writer = self.writers > 0;
        let needed = !self.snaps.is_writing() && (has_writer || self.is_dirty());
        let old = mem::replace(&mut self.context, ctx);
        if needed {
            self.snaps.queue(old, has_writer, self.meta)?;
        }
        Ok(needed)
    }

    /// Acknowledges what was issued, where something is left to acknowledge and no bit that was taken
    /// back is in use. In use are those of the live references, `refs`, and those that dirty metadata
    /// needs.
    pub fn check(&mut self, refs: Caps) -> Done
        ensures answer { result ≡ check_answer refs self.old }
        ensures after { self.new ≡ record self.old { caps = completed self.old.caps result } }
    {
        self.caps.complete(refs.union(self.flushes.dirty_bits()))
    }

    /// Sends size, mtime and mode in a flush of this number, greater than that of each flush that isn't
    /// acknowledged; nothing is dirty then. `Snap` while a cap snap is writing, `Clean` where nothing is
    /// dirty. After `Memory` the file is as before.
    #[tactic(auto, using(crate::proofs::Apart::apart_flushed))]
    pub fn flush(&mut self, tid: Tid) -> Result<FlushStep, Memory>
        requires { greatest_tid self.old < tid }
        ensures answer { IfOk result (λ s. s ≡ flush_answer tid self.old) }
        ensures after { OnOk result (self.new ≡ after_flush tid self.old) }
        ensures err { OnErr result (self.new ≡ self.old) }
    {
        if self.snaps.is_writing() {
            return Ok(FlushStep::Snap);
        }
        if !self.is_dirty() {
            return Ok(FlushStep::Clean);
        }
        let follows = self.context.seq();
        let meta = self.meta;
        self.flushes.start(tid, follows, meta)?;
        Ok(FlushStep::Sent(Sent { tid, follows, meta }))
    }

    /// Sends the first cap snap that wasn't sent, in a flush of this number, greater than that of each
    /// flush that isn't acknowledged. `None` where each was sent, `Writing` while this one is writing.
    #[tactic(auto, using(crate::proofs::Apart::apart_sent))]
    pub fn flush_snaps(&mut self, tid: Tid) -> SnapStep
        requires { greatest_tid self.old < tid }
        ensures answer { result ≡ flush_snaps_answer tid self.old }
        ensures after { self.new ≡ after_flush_snaps tid self.old }
    {
        match self.snaps.ready(0) {
            Ready::NoneQueued => SnapStep::None,
            Ready::Writing => SnapStep::Writing,
            Ready::PagesLeft { .. } => unreachable!(),
            Ready::Ready(meta, follows) => {
                self.snaps.sent(tid);
                SnapStep::Sent(Sent { tid, follows, meta })
            }
        }
    }

    /// The server has acknowledged the flush of this number. Where it is one of the file's metadata, it
    /// and those before it are retired; where it is that of a cap snap, that one leaves.
    pub fn flush_acked(&mut self, tid: Tid)
        ensures { self.new ≡ after_ack tid self.old }
    {
        self.flushes.ack(tid);
        self.snaps.acked(tid);
    }

    /// Takes a message of the server: the bits that the client now has, the message's number and the
    /// greatest end of a write, in bytes.
    pub fn deliver_cap(&mut self, bits: Caps, seq: Seq, max: u32)
        ensures { self.new ≡ record self.old { caps = delivered self.old.caps bits seq max } }
    {
        self.caps.deliver(bits, seq, max);
    }

    /// Begins a new session, in which no message about the capabilities has come yet.
    pub fn restart(&mut self)
        ensures { self.new ≡ record self.old { caps = restarted self.old.caps } }
    {
        self.caps.restart();
    }

    /// Whether the server may not know yet what the file was at a snapshot, or, at None, what it is at
    /// present.
    pub fn owed(&self, s: Option<Snap>) -> bool
        ensures { result ≡ owed s self.now }
    {
        match s {
            None => self.is_head_owed(),
            Some(s) => self.is_snap_owed(s),
        }
    }

    /// The client's end of the capabilities.
    pub fn caps(&self) -> &Cap
        ensures { result.now ≡ self.now.caps }
    {
        &self.caps
    }

    /// The file's snapshot context.
    pub fn context(&self) -> &SnapContext
        ensures { result.now ≡ self.now.context }
    {
        &self.context
    }

    /// The unacknowledged flushes of the file and of its cap snaps, in the order of their numbers, no
    /// two of which are equal. No error but `Memory`.
    pub fn unacked(&self, alloc: Global) -> Result<FlushReportList, Memory>
        ensures { IfOk result (ReportsUnacked self.now) }
    {
        merged(alloc, self.ino, self.flushes.unacked(), &self.snaps)
    }

    /// Whether `check` would answer `Hold`: a bit that was taken back is in use.
    pub fn check_holds(&self, refs: Caps) -> bool
        ensures { result ≡ is_hold (check_answer refs self.now) }
    {
        let taken_back = self.caps.implemented().minus(self.caps.issued());
        let used = refs.union(self.flushes.dirty_bits());
        !taken_back.meet(used).is_none()
    }

    /// Whether a cap snap is writing.
    pub fn is_snap_writing(&self) -> bool
        ensures { result ≡ is_writing self.now.snaps }
    {
        self.snaps.is_writing()
    }

    /// Whether `flush_snaps` would answer `Writing`, under any number.
    pub fn snaps_wait(&self) -> bool
        ensures { (tid : ℕ) → result ≡ is_wait (flush_snaps_answer tid self.now) }
    {
        matches!(self.snaps.ready(0), Ready::Writing)
    }

    // Whether metadata was changed and not sent in a flush.
    fn is_dirty(&self) -> bool
        ensures { result ≡ is_dirty self.now }
    {
        !self.flushes.dirty_bits().is_none()
    }

    // Whether the server may not know yet what the file is at present.
    fn is_head_owed(&self) -> bool
        ensures { result ≡ owed None self.now }
    {
        self.writers > 0 || self.is_dirty() || self.is_any_unacked()
    }

    // Whether it may not know yet what the file was at a snapshot.
    fn is_snap_owed(&self, s: Snap) -> bool
        ensures { result ≡ owed (Some s) self.now }
    {
        self.context.seq().get() < s.get()
            || self.snaps.unacked_below(s)
            || self.is_flush_unacked_below(s)
    }

    // Whether a flush of the file under an earlier context than a snapshot's isn't acknowledged.
    fn is_flush_unacked_below(&self, s: Snap) -> bool
        ensures { result ≡ has_flush_below s self.now }
    {
        self.flushes
            .unacked()
            .iter()
            .any(|sent| sent.follows.get() < s.get())
    }

    // Whether a cap snap, sent or not, or a flush of the file isn't acknowledged.
    #[tactic(auto, using(crate::proofs::Queues::some_long))]
    fn is_any_unacked(&self) -> bool
        ensures { result ≡ is_any_unacked self.now }
    {
        has_any(&self.snaps) || !self.flushes.unacked().is_empty()
    }
}

// Whether there is a cap snap, sent or not.
fn has_any(snaps: &CapSnaps) -> bool
    ensures { result ≡ has_any snaps.now }
{
    snaps.first_follows().is_some() || snaps.unacked(0).is_some()
}
