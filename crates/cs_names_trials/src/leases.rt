// The call of leases that takes memory, with ample memory, and what look-ups answer then.
use cs_ids::{Ino, Name};
use cs_leases::{Leases, Lookup};
use std::test::Fail;

fn ino(number: u64) -> Result<Ino, Fail> {
    Ok(Ino::new(number).ok_or("no inode's number")?)
}

#[test]
fn a_lease_is_taken(rt: HostRuntime) -> Result<(), Fail> {
    let root = ino(1)?;
    let first = ino(10_000)?;
    let second = ino(7)?;
    let name = Name::from_slice(rt.alloc(), b"x")?;
    let mut leases = Leases::new(rt.alloc());
    leases.take(root, &name, first, 60)?;
    assert_eq!(rt; leases.lookup(root, &name, 59), Lookup::Hit(first));
    leases.take(root, &name, second, 120)?;
    assert_eq!(rt; leases.lookup(root, &name, 60), Lookup::Hit(second));
    leases.take(second, &name, first, 60)?;
    assert_eq!(rt;
        leases.lookup(root, &name, 120),
        Lookup::Expired { until: 120 }
    );
    Ok(())
}
