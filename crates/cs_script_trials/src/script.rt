// What no clause says: that these calls succeed with ample memory.
use cs_ids::{Bytes, Ino};
use cs_laws::{Answer, Event};
use cs_script::{Kind, ParseFault, Script, ScriptFault, parse, print_entry, print_event};
use std::alloc::Global;
use std::test::Fail;

const SCRIPT: &[u8] = b"ceph-script 1\nfile 100 1\n\nwrite 32 g7 1048573 005aff\nsnap 1 a-1\n";

const REFUSED: &[u8] = b"ceph-script 1\ncheck 0\n";

// A text's script. The helpers here keep the texts out of the proofs of the tests.
fn read(alloc: Global, text: &[u8]) -> Result<Script, Fail> {
    Ok(parse(alloc, text)?)
}

// Why a text is no script.
fn refusal(alloc: Global, text: &[u8]) -> Option<ParseFault> {
    parse(alloc, text).err()
}

// The event behind a sign.
fn printed_event(alloc: Global, event: &Event) -> Result<Bytes, Fail> {
    let mut out = Bytes::from_slice(alloc, b"> ")?;
    print_event(event, &mut out)?;
    Ok(out)
}

// A journal's third line.
fn printed_entry(alloc: Global, event: &Event, answer: &Answer) -> Result<Bytes, Fail> {
    let mut out = Bytes::new(alloc);
    print_entry(3, event, answer, &mut out)?;
    Ok(out)
}

#[test]
fn parse_reads_a_script(rt: HostRuntime) -> Result<(), Fail> {
    let script = read(rt.alloc(), SCRIPT)?;
    assert_eq!(rt; script.len(), 3);
    let write = script.event(1).ok_or("the second event")?;
    assert!(rt; matches!(write, Event::Write { off: 1_048_573, .. }));
    Ok(())
}

#[test]
fn parse_tells_a_fault(rt: HostRuntime) -> Result<(), Fail> {
    let fault = ScriptFault {
        line: 2,
        kind: Kind::Range,
    };
    let refused = refusal(rt.alloc(), REFUSED);
    assert_eq!(rt; refused, Some(ParseFault::Fault(fault)));
    Ok(())
}

#[test]
fn print_event_adds_the_event(rt: HostRuntime) -> Result<(), Fail> {
    let file = Ino::new(100).ok_or("an inode")?;
    let out = printed_event(rt.alloc(), &Event::Check { file })?;
    assert_eq!(rt; out.as_slice(), b"> check 100".as_slice());
    Ok(())
}

#[test]
fn print_entry_adds_the_line(rt: HostRuntime) -> Result<(), Fail> {
    let out = printed_entry(rt.alloc(), &Event::ToClient, &Answer::Idle)?;
    assert_eq!(rt; out.as_slice(), b"3 toclient -> idle\n".as_slice());
    Ok(())
}
