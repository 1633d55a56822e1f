// The table of open requests.
ghost use Rattle.std.specs.Prelude.{◌≡◌, ◌+◌, ◌<◌, ◌++◌, ◌∷◌, [], map, is_some, if◌then◌else◌, IfOk, OnErr};
ghost use Rattle.std.specs.Option.{option_copied};
ghost use Rattle.cs_requests.specs.Requests.{IsInOrder, answered, is_open, is_told, message_of, named_later, oldest, open_at, resent, sent_as, told_inode, without};

use crate::named::names_entry;
use cs_ids::{Caller, Ino, Items, Memory, Name, Tid};
use cs_laws::{Message, OpAnswer, ReqOp};
use indexmap::IndexMap;
use std::alloc::Global;
use std::marker::Model;

/// An open request.
#[derive(Drop)]
pub struct OpenReq {
    pub tid: Tid,
    pub caller: Caller,
    pub op: ReqOp,
    /// What the client was told that it is answered with, if it was.
    pub answer: Option<OpAnswer>,
    /// It was sent again.
    pub resent: bool,
}

/// Messages that ask for operations, in an order.
pub type ReqList = Items<Message>;

/// The open requests of all callers, and how many requests were sent.
#[derive(Drop)]
pub struct Requests {
    alloc: Global,
    sent: u64,
    // In the order of their sending, which is that of their numbers.
    requests: IndexMap<Tid, OpenReq>,
}

impl Model for Requests {
    ghost use Rattle.cs_requests.specs.RequestTable.{RequestTable};
    ghost use Rattle.indexmap.specs.IndexMap.{values};
    ghost use Rattle.cs_requests.specs.Entries.{AreEntries};

    ghost Value = { RequestTable };

    ghost view = { λ r. record { sent = r.sent; requests = values r.requests } };

    ghost invariant = { λ r. AreEntries r.sent r.requests.entries };
}

impl Requests {
    /// No request was sent. It takes no memory.
    pub fn new(alloc: Global) -> Self
        ensures { result ≡ record { sent = 0; requests = [] } }
    {
        Requests {
            alloc,
            sent: 0,
            requests: IndexMap::new(alloc),
        }
    }

    /// Takes a request of a caller as sent, under the next number. After `Memory` all is as before.
    pub fn send(&mut self, caller: Caller, op: &ReqOp) -> Result<Tid, Memory>
        requires { self.old.sent < 99998 }
        ensures number { IfOk result (λ t. t ≡ self.old.sent + 1) }
        ensures requests { IfOk result (λ t. self.new ≡ record { sent = t; requests = self.old.requests ++ sent_as t caller op.now ∷ [] }) }
        ensures err { OnErr result (self.new ≡ self.old) }
    {
        let tid = Tid::after(self.sent);
        let request = OpenReq {
            tid,
            caller,
            op: op.copy(self.alloc)?,
            answer: None,
            resent: false,
        };
        self.requests.insert(tid, request)?;
        self.sent = tid.get();
        Ok(tid)
    }

    /// The open request of this number, or None exactly where none is open under it.
    pub fn find(&self, t: Tid) -> Option<&OpenReq>
        ensures found { option_copied result ≡ open_at t self.now.requests }
        ensures opens { is_some result ≡ is_open t self.now.requests }
    {
        self.requests.get(&t)
    }

    /// Whether an open request of a greater number names the entry of a name in a directory. It takes no
    /// memory.
    pub fn named_later(&self, t: Tid, dir: Ino, name: &Name) -> bool
        ensures { result ≡ named_later t dir name.now self.now.requests }
    {
        self.requests
            .values()
            .as_slice()
            .iter()
            .any(|r| r.tid > t && names_entry(&r.op, dir, name))
    }

    /// Takes all open requests as sent again.
    pub fn mark_resent(&mut self)
        ensures { self.new ≡ record self.old { requests = map resent self.old.requests } }
    {
        // Each request stays, and is written on the way.
        self.requests.retain(|_, request| {
            request.resent = true;
            true
        });
    }

    /// The client is told a request's answer, before its record is durable. False exactly where the
    /// request isn't open; then nothing changes.
    pub fn unsafe_reply(&mut self, t: Tid, a: OpAnswer) -> bool
        ensures opens { result ≡ is_open t self.old.requests }
        ensures requests { self.new ≡ record self.old { requests = map (answered t a) self.old.requests } }
    {
        let Some(request) = self.requests.get_mut(&t) else {
            return false;
        };
        request.answer = Some(a);
        true
    }

    /// The client is told that a request's record is durable. True exactly where the request is open and
    /// has an answer; it isn't open any more then. Else nothing changes: a request stays open until its
    /// answer came.
    pub fn safe_reply(&mut self, t: Tid) -> bool
        ensures told { result ≡ is_told t self.old.requests }
        ensures requests { self.new ≡ (if is_told t self.old.requests then record self.old { requests = without t self.old.requests } else self.old) }
    {
        let Some(request) = self.requests.get(&t) else {
            return false;
        };
        if request.answer.is_none() {
            return false;
        }
        self.requests.shift_remove(&t);
        true
    }

    /// The messages that ask for the open requests once more, in the order of the requests' numbers. A
    /// request that was answered with an inode carries it.
    pub fn to_replay(&self) -> Result<ReqList, Memory>
        ensures messages { IfOk result (λ list. list ≡ map message_of self.now.requests) }
        ensures ordered { IsInOrder self.now.requests }
    {
        let mut list = ReqList::new(self.alloc);
        for request in self.requests.values().as_slice() {
            list.push(request.message(self.alloc)?)?;
        }
        Ok(list)
    }

    /// The least number of an open request, or None exactly where none is open.
    pub fn oldest(&self) -> Option<Tid>
        ensures first { result ≡ oldest self.now.requests }
        ensures ordered { IsInOrder self.now.requests }
    {
        let request = self.requests.values().as_slice().first()?;
        Some(request.tid)
    }
}

impl OpenReq {
    // The message that asks for it once more.
    fn message(&self, alloc: Global) -> Result<Message, Memory>
        ensures { IfOk result (λ m. m ≡ message_of self.now) }
    {
        Ok(Message::Req {
            tid: self.tid,
            ino: told_inode(&self.answer),
            op: self.op.copy(alloc)?,
        })
    }
}

// The inode that an answer tells of.
fn told_inode(answer: &Option<OpAnswer>) -> Option<Ino>
    ensures { result ≡ told_inode answer.now }
{
    match answer {
        Some(OpAnswer::Made(ino)) | Some(OpAnswer::Found(ino)) => Some(*ino),
        _ => None,
    }
}
