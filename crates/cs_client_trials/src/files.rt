// Files and directories of setup lines.
ghost use Rattle.std.specs.Prelude.{◌≡◌, true, false, OnOk};
ghost use Rattle.cs_tree.specs.Directories.{has_directory};
ghost use Rattle.cs_client.specs.Calls.{HasDrawn, is_in_use};
ghost use Rattle.cs_client.specs.Views.{IsBlank};

use crate::steps::{bits, expect_bytes, give, ino, made_by, step, told_of_file, with_write};
use cs_client::{Client, calls_draw_few_numbers};
use cs_laws::{Answer, Event, Message, MessageList};
use cs_objstore::MemStore;
use std::alloc::Global;
use std::process::Abort;
use std::test::Fail;

#[test]
fn a_read_reads_the_store_that_is_lent(rt: HostRuntime) -> Result<(), Fail> {
    let alloc = rt.alloc();
    let mut first = MemStore::new(alloc);
    let mut second = MemStore::new(alloc);
    let mut client = Client::new(alloc, 256)?;
    read_of_two(&rt, alloc, &mut client, &mut first, &mut second)
}

fn read_of_two(
    rt: &impl Abort,
    alloc: Global,
    client: &mut Client,
    first: &mut MemStore,
    second: &mut MemStore,
) -> Result<(), Fail>
    requires { IsBlank client.old }
{
    with_write(rt, alloc, client, first)?;
    expect_bytes(rt, alloc, client, 6, first, b"aa")?;
    expect_bytes(rt, alloc, client, 8, second, b"\0\0")
}

#[test]
fn a_directory_holds_a_file(rt: HostRuntime) -> Result<(), Fail> {
    let alloc = rt.alloc();
    let mut store = MemStore::new(alloc);
    let mut client = Client::new(alloc, 256)?;
    file_in_directory(&rt, alloc, &mut client, &mut store)
}

fn file_in_directory(
    rt: &impl Abort,
    alloc: Global,
    client: &mut Client,
    store: &mut MemStore,
) -> Result<(), Fail>
    requires { IsBlank client.old }
{
    told_of_directory(rt, alloc, client, store)?;
    let file = Event::File {
        file: ino(100)?,
        parent: ino(2)?,
    };
    made_by(rt, alloc, client, 2, store, &file)
}

// The client is told of directory 2 in the root directory, before all else.
fn told_of_directory(
    rt: &impl Abort,
    alloc: Global,
    client: &mut Client,
    store: &mut MemStore,
) -> Result<(), Fail>
    requires { IsBlank client.old }
    ensures drawn { OnOk result (HasDrawn 2 client.new) }
    ensures known { OnOk result (has_directory 2 client.new.tree ≡ true) }
    ensures unused { OnOk result (is_in_use 100 client.new.tree client.new.files ≡ false) }
{
    calls_draw_few_numbers();
    let directory = Event::Dir {
        dir: ino(2)?,
        parent: ino(1)?,
    };
    made_by(rt, alloc, client, 0, store, &directory)
}

#[test]
fn a_check_acknowledges_what_was_told(rt: HostRuntime) -> Result<(), Fail> {
    let alloc = rt.alloc();
    let mut store = MemStore::new(alloc);
    let mut client = Client::new(alloc, 256)?;
    check_file(&rt, alloc, &mut client, &mut store)
}

fn check_file(
    rt: &impl Abort,
    alloc: Global,
    client: &mut Client,
    store: &mut MemStore,
) -> Result<(), Fail>
    requires { IsBlank client.old }
{
    told_of_file(rt, alloc, client, store)?;
    give(rt, client, ino(100)?, 1, bits())?;
    let mut out = MessageList::new(alloc);
    let event = Event::Check { file: ino(100)? };
    let Answer::Ack { .. } = step(rt, client, 2, store, &event, &mut out)? else {
        return Err(Fail::from("no acknowledgement"));
    };
    let message = out.get(0).ok_or("no message")?;
    assert!(rt; matches!(message, Message::CapAck { .. }));
    Ok(())
}

#[test]
fn a_flush_sends_dirty_metadata(rt: HostRuntime) -> Result<(), Fail> {
    let alloc = rt.alloc();
    let mut store = MemStore::new(alloc);
    let mut client = Client::new(alloc, 256)?;
    flush_file(&rt, alloc, &mut client, &mut store)
}

fn flush_file(
    rt: &impl Abort,
    alloc: Global,
    client: &mut Client,
    store: &mut MemStore,
) -> Result<(), Fail>
    requires { IsBlank client.old }
{
    with_write(rt, alloc, client, store)?;
    let mut out = MessageList::new(alloc);
    let event = Event::Flush { file: ino(100)? };
    let Answer::Flush { .. } = step(rt, client, 6, store, &event, &mut out)? else {
        return Err(Fail::from("no flush"));
    };
    let message = out.get(0).ok_or("no message")?;
    assert!(rt; matches!(message, Message::Flush { .. }));
    Ok(())
}
