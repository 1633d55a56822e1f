// How far an operation of write-back has come. The links between the client and the store may lose,
// repeat and reorder what they carry.

/// How far an operation has come that was sent to the store.
#[derive(Clone, Copy, PartialEq, Eq, Debug)]
pub struct Delivery {
    /// How many copies of it are on the way to the store.
    pub copies: u32,
    /// How many of the store's replies are on the way back.
    pub replies: u32,
    /// Whether a reply has come: the operation is then acknowledged.
    pub acked: bool,
}

/// What a reply tells the client.
#[derive(Clone, Copy, PartialEq, Eq, Debug)]
pub enum Reply {
    /// The operation is acknowledged, which it wasn't before.
    First,
    /// The operation was acknowledged before.
    Late,
    /// No reply is on the way.
    Unknown,
}

/// What becomes of an order to send an operation again.
#[derive(Clone, Copy, PartialEq, Eq, Debug)]
pub enum Resend {
    /// One more copy is on the way.
    Sent,
    /// The operation is acknowledged.
    Late,
    /// As many copies are on the way as may be, which is 8.
    Copies,
    /// No such operation was sent.
    Unknown,
}
