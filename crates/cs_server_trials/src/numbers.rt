// Numbers for the tests.
ghost use Rattle.std.specs.Prelude.{◌≡◌, IfOk};

use cs_ids::{Ino, Snap, Tid};
use std::test::Fail;

pub fn ino(number: u64) -> Result<Ino, Fail>
    ensures { IfOk result (λ i. i ≡ number) }
{
    Ok(Ino::new(number).ok_or("no inode's number")?)
}

pub fn snap(number: u64) -> Result<Snap, Fail>
    ensures { IfOk result (λ s. s ≡ number) }
{
    Ok(Snap::new(number).ok_or("no snapshot's number")?)
}

pub fn tid(number: u64) -> Result<Tid, Fail> {
    Ok(Tid::new(number).ok_or("no number of a flush or a request")?)
}
