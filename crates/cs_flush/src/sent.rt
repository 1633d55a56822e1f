// Flushes of a file that were sent, and what an acknowledgement did.
use cs_ids::{FileMeta, Seq, Tid};

/// A flush that was sent. Contracts see a file's unacknowledged flushes as a list of these.
#[derive(Clone, Copy, PartialEq, Eq, Debug)]
pub struct Sent {
    /// Its number.
    pub tid: Tid,
    /// The `seq` of the snapshot context that the file had.
    pub follows: Seq,
    /// The metadata that it sent.
    pub meta: FileMeta,
}

/// What the acknowledgement of a flush did.
#[derive(Clone, Copy, PartialEq, Eq, Debug)]
pub enum FlushAck {
    /// It retired so many flushes, its own and those before it.
    Retired { count: u32 },
    /// No unacknowledged flush has the number.
    Unknown,
}
