// The records of the server's log, and lists of realm records.
ghost use Rattle.std.specs.Prelude.{◌≡◌, IfOk};
ghost use Rattle.cs_laws.specs.Spellings.{meta_fits, record_fits};

use crate::requests::copy_name;
use crate::{OpAnswer, ReqOp};
use cs_ids::{FileMeta, Ino, Items, Memory, Name, Seq, Snap, Tid};
use cs_snapctx::RealmRecord;
use std::alloc::Global;

/// A record of the server's log.
#[derive(Drop)]
pub struct Record {
    pub body: RecordBody,
}

impl Record {
    /// A copy, equal to the record.
    pub fn copy(&self, alloc: Global) -> Result<Record, Memory>
        ensures { IfOk result (λ r. r ≡ self.now) }
    {
        Ok(Record {
            body: self.body.copy(alloc)?,
        })
    }

    /// Whether the record has a spelling in bytes. It takes no memory.
    pub fn fits(&self) -> bool
        ensures { result ≡ record_fits self.now }
    {
        match &self.body {
            RecordBody::Request { .. } => true,
            RecordBody::Flush { meta, .. } => meta_fits(meta),
            RecordBody::Snap { number, .. } => number.get() >= 1,
            RecordBody::Removal { snap, number } => snap.get() >= 1 && number.get() >= 1,
        }
    }
}

// Whether a file may have this metadata.
pub(crate) fn meta_fits(meta: &FileMeta) -> bool
    ensures { result ≡ meta_fits meta.now }
{
    meta.size <= 1_048_576 && meta.mtime <= 4_294_967_295 && meta.mode <= 4095
}

/// What a record tells.
#[derive(Drop)]
pub enum RecordBody {
    /// A request was answered.
    Request {
        tid: Tid,
        op: ReqOp,
        answer: OpAnswer,
    },
    /// A flush of a file's metadata was applied; `snap` tells whether it is that of a cap snap.
    Flush {
        snap: bool,
        file: Ino,
        tid: Tid,
        follows: Seq,
        meta: FileMeta,
    },
    /// A snapshot of a directory was taken.
    Snap {
        number: Snap,
        dir: Ino,
        name: Name,
    },
    /// A snapshot was removed, under a number of its own.
    Removal {
        snap: Snap,
        number: Snap,
    },
}

impl RecordBody {
    fn copy(&self, alloc: Global) -> Result<RecordBody, Memory>
        ensures { IfOk result (λ b. b ≡ self.now) }
    {
        // The proof of the match needs the type of the answer named.
        let _told: Option<OpAnswer> = None;
        Ok(match self {
            RecordBody::Request { tid, op, answer } => RecordBody::Request {
                tid: *tid,
                op: op.copy(alloc)?,
                answer: *answer,
            },
            RecordBody::Flush {
                snap,
                file,
                tid,
                follows,
                meta,
            } => RecordBody::Flush {
                snap: *snap,
                file: *file,
                tid: *tid,
                follows: *follows,
                meta: *meta,
            },
            RecordBody::Snap { number, dir, name } => RecordBody::Snap {
                number: *number,
                dir: *dir,
                name: copy_name(alloc, name)?,
            },
            RecordBody::Removal { snap, number } => RecordBody::Removal {
                snap: *snap,
                number: *number,
            },
        })
    }
}

/// Realm records in an order.
pub type RealmRecordList = Items<RealmRecord>;
