// Cap snaps, and whether the next one can be sent.
ghost use Rattle.std.specs.Prelude.{◌≡◌};

use cs_ids::{FileMeta, Seq, Tid};
use cs_snapctx::SnapContext;

/// A file's metadata under an earlier snapshot context, which the client owes the server. Contracts
/// see a queue as a list of these.
#[derive(Debug, Drop)]
pub struct CapSnap {
    /// The context that the file had. The cap snap follows its `seq`.
    pub context: SnapContext,
    /// The mode is that of the moment of queuing. So are size and mtime, or, where writers still
    /// lived then, they are those of the moment when the last of them ended.
    pub meta: FileMeta,
    /// Whether writers that began before it was queued still live, so that size and mtime are open.
    pub writing: bool,
    /// The number of the flush in which it was sent, or None before.
    pub tid: Option<Tid>,
}

impl CapSnap {
    ghost use Rattle.cs_capsnap.specs.CapSnaps.{flush};

    // Of one that was sent: the flush's number, the `seq` of the context and the metadata.
    pub(crate) fn flush(&self) -> Option<(Tid, Seq, FileMeta)>
        ensures { result ≡ flush self.now }
    {
        let tid = self.tid?;
        Some((tid, self.context.seq(), self.meta))
    }
}

/// Whether the first unsent cap snap can be sent.
#[derive(Clone, Copy, PartialEq, Eq, Debug)]
pub enum Ready {
    /// It can: its metadata, and the `seq` of its context.
    Ready(FileMeta, Seq),
    /// Writers that began before it was queued still live.
    Writing,
    /// So many pages are owed under its context or earlier ones.
    PagesLeft { count: u32 },
    /// No cap snap is unsent.
    NoneQueued,
}
