// The lines that stand before all others: both sides come to know a directory or a file.
ghost use Rattle.std.specs.Prelude.{◌≡◌, true, IfOk, OnErr, IsErrOf};
ghost use Rattle.cs_laws.specs.Events.{is_setup};
ghost use Rattle.cs_laws.specs.Fits.{fits};
ghost use Rattle.cs_laws.specs.Runs.{all_setup};
ghost use Rattle.cs_world.specs.Tables.{IsReady, KeepsJournal, Steps, past};

use crate::state::State;
use cs_laws::{Answer, Event, MessageList, StepFault};
use cs_objstore::ObjStore;

/// The server decides whether it stands. The client is told where it does.
pub fn set_up<O: ObjStore>(
    state: &mut State,
    store: &mut O,
    event: &Event,
) -> Result<Answer, StepFault>
    requires ready { IsReady state.old }
    requires fits { fits event.now ≡ true }
    requires setup { is_setup event.now ≡ true }
    requires first { all_setup (past state.old) ≡ true }
    ensures ok { IfOk result (λ a. Steps state.old state.new event.now a) }
    ensures err { OnErr result (KeepsJournal state.old state.new) }
    ensures store { store.new ≡ store.old }
    ensures unstored { IsErrOf result StepFault.Store → ⊥ }
    ensures unlogged { IsErrOf result StepFault.Log → ⊥ }
{
    match state.server.setup(event)? {
        Answer::Made => {
            let mut out = MessageList::new(state.alloc);
            Ok(state.client.step_call(event, true, store, &mut out)?)
        }
        answer => Ok(answer),
    }
}
