// The names in a directory.
ghost use Rattle.std.specs.Prelude.{◌≡◌, IfOk};
ghost use Rattle.cs_laws.specs.declared.events.Event.TheVariants as events;
ghost use Rattle.cs_world.specs.Tables.{IsReady, Steps, past};

use crate::state::State;
use cs_ids::{Ino, Memory};
use cs_laws::Answer;

/// Lists the names that stand in a directory, as the server has them.
pub fn list_names(state: &State, dir: Ino) -> Result<Answer, Memory>
    requires { IsReady state.now }
    ensures { IfOk result (λ a. Steps state.now state.now (events.Names dir) a) }
{
    let answer = state.server.names(dir)?;
    Ok(answer)
}
