// The call that takes memory, with ample memory.
use cs_bits::Caps;
use cs_ids::{Caller, Ino, Seq};
use cs_refs::Refs;
use std::test::Fail;

#[test]
fn a_reference_begins_and_ends(rt: HostRuntime) -> Result<(), Fail> {
    let caller = Caller::new(32).ok_or("a caller")?;
    let file = Ino::new(100).ok_or("a file")?;
    let mut refs = Refs::new(rt.alloc());
    let number = refs.begin(caller, file, Caps::FILE_WRITE, 8, Seq::zero())?;
    assert_eq!(rt; number.get(), 1);
    assert_eq!(rt; refs.used(file), Caps::FILE_WRITE);
    assert!(rt; refs.end(caller, number).is_some());
    Ok(())
}
