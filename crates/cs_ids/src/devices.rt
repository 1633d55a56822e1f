// What a device answers where it fails.

/// A device failed. A call of a source, a sink, a store or a log answers so only where the device's
/// count of faults rose in that call.
#[derive(Clone, Copy, PartialEq, Eq, Debug)]
pub struct Failed;
