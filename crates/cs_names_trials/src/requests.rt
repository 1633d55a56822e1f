// The calls of requests, with ample memory.
ghost use Rattle.std.specs.Prelude.{◌≡◌, ◌+◌, ◌<◌, ◌≤◌, IfOk, OnOk};

use cs_ids::{Caller, Ino, Name, Tid};
use cs_laws::{Message, OpAnswer, ReqOp};
use cs_requests::Requests;
use std::alloc::Global;
use std::test::Fail;

fn root() -> Result<Ino, Fail> {
    Ok(Ino::new(1).ok_or("no inode's number")?)
}

fn caller() -> Result<Caller, Fail> {
    Ok(Caller::new(3).ok_or("no caller's number")?)
}

// Caller 3 looks up a name in the root directory, where at most `before` requests were sent.
fn sent(alloc: Global, requests: &mut Requests, before: u64) -> Result<Tid, Fail>
    requires few { requests.old.sent ≤ before }
    requires room { before < 1000 }
    ensures { OnOk result (requests.new.sent ≤ before + 1) }
{
    let op = ReqOp::Lookup {
        dir: root()?,
        name: Name::from_slice(alloc, b"a")?,
    };
    Ok(requests.send(caller()?, &op)?)
}

#[test]
fn requests_are_numbered_from_one(rt: HostRuntime) -> Result<(), Fail> {
    let alloc = rt.alloc();
    let mut requests = Requests::new(alloc);
    assert!(rt; requests.oldest().is_none());
    let first = sent(alloc, &mut requests, 0)?;
    let second = sent(alloc, &mut requests, 1)?;
    assert_eq!(rt; (first.get(), second.get()), (1, 2));
    assert!(rt; requests.oldest() == Some(first));
    let name = Name::from_slice(alloc, b"a")?;
    assert!(rt; requests.named_later(first, root()?, &name));
    assert!(rt; !requests.named_later(second, root()?, &name));
    Ok(())
}

#[test]
fn a_request_closes_behind_its_answer(rt: HostRuntime) -> Result<(), Fail> {
    let mut requests = Requests::new(rt.alloc());
    let first = sent(rt.alloc(), &mut requests, 0)?;
    assert!(rt; !requests.safe_reply(first));
    assert!(rt; requests.unsafe_reply(first, OpAnswer::Missing));
    assert!(rt; requests.safe_reply(first));
    assert!(rt; !requests.unsafe_reply(first, OpAnswer::Missing));
    assert!(rt; requests.find(first).is_none());
    Ok(())
}

#[test]
fn an_answer_is_carried_again(rt: HostRuntime) -> Result<(), Fail> {
    let mut requests = Requests::new(rt.alloc());
    let first = sent(rt.alloc(), &mut requests, 0)?;
    assert!(rt; requests.unsafe_reply(first, OpAnswer::Found(root()?)));
    requests.mark_resent();
    let open = requests.find(first).ok_or("not open")?;
    assert!(rt; open.resent);
    let replay = requests.to_replay()?;
    assert_eq!(rt; replay.len(), 1);
    let message = replay.get(0).ok_or("no message")?;
    assert!(rt; is_request(message, first, root()?));
    Ok(())
}

// Whether the message asks for the request of a number, with an inode.
fn is_request(message: &Message, number: Tid, inode: Ino) -> bool {
    match message {
        Message::Req { tid, ino, .. } => *tid == number && *ino == Some(inode),
        _ => false,
    }
}
