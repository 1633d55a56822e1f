// Each call that allocates, with ample memory, and those about it.
use cs_ids::{Seq, Snap};
use cs_pages::{Filled, PageWrite, Pages, Pick};
use cs_snapctx::{SnapContext, SnapList};
use std::alloc::Global;
use std::test::Fail;

// A context of this number, without snapshots.
fn context(alloc: Global, seq: u64) -> Result<SnapContext, Fail> {
    let seq = Seq::new(seq).ok_or("no context's number")?;
    let since = Snap::new(0).ok_or("no snapshot's number")?;
    let none = SnapList::new(alloc);
    let none = none.as_slice();
    let parent = SnapContext::empty(alloc);
    Ok(SnapContext::merge(alloc, none, none, seq, &parent, since)?)
}

#[test]
fn a_page_is_filled_and_written(rt: HostRuntime) -> Result<(), Fail> {
    let alloc = rt.alloc();
    let first = context(alloc, 1)?;
    let later = context(alloc, 2)?;
    let older = PageWrite::Older { seq: first.seq() };
    let mut pages = Pages::new(alloc);
    assert!(rt; pages.write(3, 10, b"abc".as_slice(), &first, 4)? == PageWrite::NeedFill);
    assert!(rt; pages.fill(3, &[1; 4096], 4)? == Filled::Filled);
    assert!(rt; pages.write(3, 10, b"abc".as_slice(), &first, 3)? == PageWrite::Written);
    assert!(rt; pages.write(3, 11, b"d".as_slice(), &later, 3)? == older);
    assert!(rt; pages.pick() == Pick::Page(3));
    Ok(())
}
