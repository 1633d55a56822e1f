// Flushes that are sent again after a reconnect.
use crate::Sent;
use cs_ids::{Ino, Items};

/// A flush to be sent again: of a file, or of a cap snap of it.
#[derive(Clone, Copy, PartialEq, Eq, Debug)]
pub struct FlushReport {
    /// The file.
    pub ino: Ino,
    pub sent: Sent,
    /// Whether it is that of a cap snap.
    pub snap: bool,
}

/// Flushes to be sent again, in an order.
pub type FlushReportList = Items<FlushReport>;
