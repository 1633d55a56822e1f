// What a file answers.
use cs_flush::Sent;
use cs_ids::Seq;
use cs_laws::ObjOps;

/// Whether a reference may begin.
#[derive(Clone, Copy, PartialEq, Eq, Debug)]
pub enum Allow {
    /// It may. Its tag is the `seq` of the file's snapshot context.
    Yes { tag: Seq },
    /// Some of its bits aren't issued.
    NoCaps,
    /// It may write, and a cap snap of the file is writing.
    Snap,
    /// It may write, and ends beyond the greatest end that the server granted.
    Max,
}

/// What is to be done for a write.
#[derive(Drop)]
pub enum WriteStep {
    /// The object store applies these operations, in their order.
    Direct(ObjOps),
}

/// What became of a change of the mode.
#[derive(Clone, Copy, PartialEq, Eq, Debug)]
pub enum ChmodStep {
    /// The file has the mode.
    Done,
    /// A cap snap of the file is writing, and nothing changes.
    Snap,
}

/// What is flushed of a file's metadata.
#[derive(Clone, Copy, PartialEq, Eq, Debug)]
pub enum FlushStep {
    /// The server is sent this.
    Sent(Sent),
    /// Nothing, since a cap snap of the file is writing.
    Snap,
    /// Nothing, since nothing is dirty.
    Clean,
}

/// What is flushed of a file's cap snaps.
#[derive(Clone, Copy, PartialEq, Eq, Debug)]
pub enum SnapStep {
    /// The server is sent this, the first cap snap that wasn't sent yet.
    Sent(Sent),
    /// Nothing, since each cap snap was sent.
    None,
    /// Nothing, since the first that wasn't sent is still writing.
    Writing,
}
