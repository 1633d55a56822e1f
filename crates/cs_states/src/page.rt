// What a page of a file is to the client, after the CephFS documentation of buffered writes and the
// comments of Linux's fs/ceph/addr.c.
ghost use Rattle.std.specs.Prelude.{◌≡◌};

use cs_ids::{Seq, Tid};

/// What a page of a file is to the client. It is cached unless it is `Absent`. It is owed to the
/// object store while it is `Dirty` or `Sent`, under one snapshot context, which `seq` numbers.
#[derive(Clone, Copy, PartialEq, Eq, Debug)]
pub enum PageState {
    /// Not cached.
    Absent,
    /// Cached, and nothing of it is owed.
    Clean,
    /// Written and not sent since.
    Dirty { seq: Seq },
    /// Sent to the store in the operation `tid`, which isn't acknowledged.
    Sent { seq: Seq, tid: Tid },
}

impl PageState {
    ghost use Rattle.cs_states.specs.PageState.{is_in, is_under, is_up_to, is_waiting, owed_seq};

    /// The `seq` of the context under which the page is owed, or None exactly where it isn't owed.
    pub fn owed_seq(self) -> Option<Seq>
        ensures { result ≡ owed_seq self }
    {
        match self {
            PageState::Absent | PageState::Clean => None,
            PageState::Dirty { seq } | PageState::Sent { seq, .. } => Some(seq),
        }
    }

    /// Whether the page is owed under the context of this number.
    pub fn is_under(self, seq: Seq) -> bool
        ensures { result ≡ is_under seq self }
    {
        self.owed_seq() == Some(seq)
    }

    /// Whether the page is owed under a context of at most this number.
    pub fn is_up_to(self, follows: Seq) -> bool
        ensures { result ≡ is_up_to follows self }
    {
        match self.owed_seq() {
            None => false,
            Some(seq) => seq <= follows,
        }
    }

    /// Whether the page is owed under the context of this number, and isn't sent.
    pub fn is_waiting(self, seq: Seq) -> bool
        ensures { result ≡ is_waiting seq self }
    {
        match self {
            PageState::Dirty { seq: own } => own == seq,
            PageState::Absent | PageState::Clean | PageState::Sent { .. } => false,
        }
    }

    /// Whether the page is sent in this operation.
    pub fn is_in(self, tid: Tid) -> bool
        ensures { result ≡ is_in tid self }
    {
        match self {
            PageState::Sent { tid: own, .. } => own == tid,
            PageState::Absent | PageState::Clean | PageState::Dirty { .. } => false,
        }
    }
}

/// What becomes of a buffered write into one page. The causes are tested in the order below.
#[derive(Clone, Copy, PartialEq, Eq, Debug)]
pub enum PageWrite {
    /// It is done.
    Written,
    /// The page is owed under an older context, of this number: its bytes are to be sent first.
    Older { seq: Seq },
    /// The page is in flight, in this operation.
    InFlight { tid: Tid },
    /// The page isn't cached, and no page is free.
    Room,
    /// The page isn't cached, and the write doesn't cover it whole: it is to be filled first.
    NeedFill,
}

/// Which page is written back next.
#[derive(Clone, Copy, PartialEq, Eq, Debug)]
pub enum Pick {
    /// The page of this number.
    Page(u32),
    /// None yet: so many pages are owed under the oldest context, and all of them are in flight.
    Waiting(u32),
    /// None, since no page is owed.
    Clean,
}
