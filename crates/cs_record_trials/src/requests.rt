// Requests before and behind a commit.
use crate::steps::{add_request, commit, ino, tid};
use cs_laws::{MessageList, OpAnswer};
use cs_records::Records;
use std::alloc::Global;
use std::process::Abort;
use std::test::Fail;

// Adds two requests of which the first made directory 3.
fn add_two(rt: &impl Abort, alloc: Global, records: &mut Records) -> Result<(), Fail> {
    add_request(rt, alloc, records, 1, OpAnswer::Made(ino(3)?))?;
    add_request(rt, alloc, records, 4, OpAnswer::Exists)
}

fn answer(records: &Records, number: u64) -> Result<OpAnswer, Fail> {
    Ok(
        records
            .request_answer(tid(number)?)
            .ok_or("no such request")?,
    )
}

fn is_durable(records: &Records, number: u64) -> Result<bool, Fail> {
    Ok(records.is_request_durable(tid(number)?))
}

// Each of the two has its own answer, and no other request has one.
fn answers_stand(rt: &impl Abort, records: &Records) -> Result<(), Fail> {
    let made = OpAnswer::Made(ino(3)?);
    assert!(rt; answer(records, 1)? == made);
    assert!(rt; answer(records, 4)? == OpAnswer::Exists);
    assert!(rt; records.request_answer(tid(2)?).is_none());
    Ok(())
}

// Both are durable once they are committed, and a later one isn't.
fn commit_two(
    rt: &impl Abort,
    alloc: Global,
    records: &mut Records,
    told: &mut MessageList,
) -> Result<(), Fail> {
    assert!(rt; !is_durable(records, 1)?);
    commit(rt, alloc, records, told)?;
    add_request(rt, alloc, records, 5, OpAnswer::Missing)?;
    assert!(rt; is_durable(records, 1)?);
    assert!(rt; is_durable(records, 4)?);
    assert!(rt; !is_durable(records, 5)?);
    answers_stand(rt, records)
}

#[test]
fn each_request_has_its_answer(rt: HostRuntime) -> Result<(), Fail> {
    let mut records = Records::new(rt.alloc());
    assert_eq!(rt; records.last_request(), 0);
    add_two(&rt, rt.alloc(), &mut records)?;
    assert_eq!(rt; records.last_request(), 4);
    answers_stand(&rt, &records)
}

#[test]
fn requests_are_durable_behind_a_commit(rt: HostRuntime) -> Result<(), Fail> {
    let mut records = Records::new(rt.alloc());
    let mut told = MessageList::new(rt.alloc());
    add_two(&rt, rt.alloc(), &mut records)?;
    commit_two(&rt, rt.alloc(), &mut records, &mut told)
}
