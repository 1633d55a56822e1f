// The call that takes memory, with ample memory.
use cs_command::{Command, read_command};
use std::test::Fail;

#[test]
fn words_ask_for_a_run(rt: HostRuntime) -> Result<(), Fail> {
    let mut words = Vec::new(rt.alloc());
    words.push(String::from_str(rt.alloc(), "run")?)?;
    words.push(String::from_str(rt.alloc(), "--pages=7")?)?;
    let asked = read_command(rt.alloc(), words.as_slice());
    assert_eq!(rt; asked, Ok(Command::Run { pages: 7 }));
    Ok(())
}
