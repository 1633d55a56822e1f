// Messages go onto a link.
ghost use Rattle.std.specs.Prelude.{◌≡◌, ◌++◌, OnOk};

use cs_ids::Memory;
use cs_laws::{Message, MessageList};
use std::alloc::Global;
use std::collections::VecDeque;

/// Sends these messages, in their order, behind those on the link.
pub fn send_all(
    alloc: Global,
    messages: &MessageList,
    link: &mut VecDeque<Message>,
) -> Result<(), Memory>
    ensures { OnOk result (link.new.items ≡ link.old.items ++ messages.now) }
{
    for message in messages.as_slice() {
        link.push_back(message.copy(alloc)?)?;
    }
    Ok(())
}
