// The journal so far, the two sides, and the links between them.
ghost use Rattle.std.specs.Prelude.{◌≡◌, [], IfOk};
ghost use Rattle.cs_world.specs.Tables.{Refines};

use cs_client::Client;
use cs_ids::Memory;
use cs_laws::{Entry, Message};
use cs_mds::Mds;
use std::alloc::Global;
use std::collections::VecDeque;

/// The entries of the journal, the oldest first, and what stands for them.
#[derive(Drop)]
pub struct State {
    pub alloc: Global,
    pub pages: u32,
    pub entries: Vec<Entry>,
    pub client: Client,
    pub server: Mds,
    /// The messages on their way to the client, the first one first.
    pub to_client: VecDeque<Message>,
    /// Those on their way to the server.
    pub to_server: VecDeque<Message>,
}

pub fn start(alloc: Global, pages: u32) -> Result<State, Memory>
    ensures entries { IfOk result (λ s. s.entries.items ≡ []) }
    ensures pages { IfOk result (λ s. s.pages ≡ pages) }
    ensures parts { IfOk result (λ s. Refines [] s) }
{
    Ok(State {
        alloc,
        pages,
        entries: Vec::new(alloc),
        client: Client::new(alloc, pages)?,
        server: Mds::new(alloc)?,
        to_client: VecDeque::new(alloc),
        to_server: VecDeque::new(alloc),
    })
}
