// Directories and files that stand before all records.
ghost use Rattle.std.specs.Prelude.{◌≡◌, [], true};
ghost use Rattle.cs_laws.specs.Events.{is_setup};
ghost use Rattle.cs_mds.specs.Views.{stand};

use crate::numbers::ino;
use cs_laws::{Answer, Event};
use cs_mds::Mds;
use std::alloc::Global;
use std::process::Abort;
use std::test::Fail;

// The answer of a server without records.
fn made(rt: &impl Abort, mds: &mut Mds, event: &Event) -> Result<Answer, Fail>
    requires setup { is_setup event.now ≡ true }
    requires first { stand mds.old ≡ [] }
{
    assert!(rt; event.fits());
    Ok(mds.setup(event)?)
}

// The answer of a server that knows the root alone.
fn first_answer(rt: &impl Abort, alloc: Global, event: &Event) -> Result<Answer, Fail>
    requires { is_setup event.now ≡ true }
{
    let mut mds = Mds::new(alloc)?;
    made(rt, &mut mds, event)
}

#[test]
fn a_directory_is_made(rt: HostRuntime) -> Result<(), Fail> {
    let event = Event::Dir {
        dir: ino(2)?,
        parent: ino(1)?,
    };
    let answer = first_answer(&rt, rt.alloc(), &event)?;
    assert!(rt; matches!(answer, Answer::Made));
    Ok(())
}

#[test]
fn a_file_is_made(rt: HostRuntime) -> Result<(), Fail> {
    let event = Event::File {
        file: ino(100)?,
        parent: ino(1)?,
    };
    let answer = first_answer(&rt, rt.alloc(), &event)?;
    assert!(rt; matches!(answer, Answer::Made));
    Ok(())
}
