// Which files a snapshot covers.
use crate::steps::{add_request, add_snap, ino};
use cs_ids::Snap;
use cs_laws::OpAnswer;
use cs_records::Records;
use std::alloc::Global;
use std::process::Abort;
use std::test::Fail;

// Whether a snapshot of a directory covers what lies in directory `first`, which is in 2, which is in the
// root.
fn covers(records: &Records, snap: Snap, dir: u64, first: u64) -> Result<bool, Fail> {
    let path = [ino(first)?, ino(2)?, ino(1)?];
    Ok(records.covers(snap, ino(dir)?, path.as_slice()))
}

// A snapshot of directory 2, a request that makes directory 3 in it, and a snapshot of that.
fn add_each(rt: &impl Abort, alloc: Global, records: &mut Records) -> Result<(Snap, Snap), Fail> {
    let first = add_snap(rt, alloc, records, ino(2)?)?;
    add_request(rt, alloc, records, 1, OpAnswer::Made(ino(3)?))?;
    let second = add_snap(rt, alloc, records, ino(3)?)?;
    Ok((first, second))
}

#[test]
fn a_directory_is_covered_from_its_making_on(rt: HostRuntime) -> Result<(), Fail> {
    let mut records = Records::new(rt.alloc());
    let (first, second) = add_each(&rt, rt.alloc(), &mut records)?;
    assert!(rt; !covers(&records, first, 2, 3)?);
    assert!(rt; covers(&records, second, 3, 3)?);
    assert!(rt; !covers(&records, second, 4, 3)?);
    let third = add_snap(&rt, rt.alloc(), &mut records, ino(1)?)?;
    assert!(rt; covers(&records, third, 1, 3)?);
    Ok(())
}

#[test]
fn a_realm_of_a_setup_line_is_covered(rt: HostRuntime) -> Result<(), Fail> {
    let mut records = Records::new(rt.alloc());
    let first = add_snap(&rt, rt.alloc(), &mut records, ino(2)?)?;
    add_snap(&rt, rt.alloc(), &mut records, ino(4)?)?;
    assert!(rt; covers(&records, first, 2, 4)?);
    Ok(())
}
