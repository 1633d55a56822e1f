// A cached page.
ghost use Rattle.std.specs.Prelude.{◌≡◌};

use crate::Block;
use cs_ids::Tid;
use cs_snapctx::SnapContext;
use cs_states::PageState;

/// What the object store is owed of a page. A page has one such debt at most, so all of its writes
/// that the store hasn't are under one snapshot context.
#[derive(Drop)]
pub struct Owed {
    /// The context of these writes.
    pub context: SnapContext,
    /// The operation in which the page is sent, or None before.
    pub tid: Option<Tid>,
}

/// A cached page. Contracts see the cached pages of a file as a list of these with their numbers.
#[derive(Drop)]
pub struct Page {
    pub bytes: Block,
    /// What is owed of it, or None where it is clean.
    pub owed: Option<Owed>,
}

impl Page {
    ghost use Rattle.cs_pages.specs.Page.{page_state};

    // What the page is to the client.
    pub(crate) fn state(&self) -> PageState
        ensures { result ≡ page_state self.now }
    {
        let Some(owed) = &self.owed else {
            return PageState::Clean;
        };
        let seq = owed.context.seq();
        match owed.tid {
            None => PageState::Dirty { seq },
            Some(tid) => PageState::Sent { seq, tid },
        }
    }
}

/// What became of an order to put a page of the store into the cache.
#[derive(Clone, Copy, PartialEq, Eq, Debug)]
pub enum Filled {
    /// It is cached.
    Filled,
    /// No page is free.
    Room,
}
