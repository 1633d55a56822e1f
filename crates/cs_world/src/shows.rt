// What the server's records and the store hold of a file.
ghost use Rattle.std.specs.Prelude.{◌≡◌, true, IfOk, IsErrOf};
ghost use Rattle.cs_laws.specs.declared.events.Event.TheVariants as events;
ghost use Rattle.cs_laws.specs.Fits.{fits};
ghost use Rattle.cs_laws.specs.Operations.{applied};
ghost use Rattle.cs_files.specs.Laws.{snapshot_of};
ghost use Rattle.cs_inode.specs.Said.{shown_count};
ghost use Rattle.cs_world.specs.Devices.{StoreOf};
ghost use Rattle.cs_world.specs.Tables.{IsReady, Steps, past};

use crate::state::State;
use cs_ids::{Ino, Snap};
use cs_laws::{Answer, At, StepFault};
use cs_mds::Shown;
use cs_objstore::{ObjStore, read_file};

/// Shows a file at a snapshot, or at present: its metadata by the server's records, and bytes of it by
/// the object store.
pub fn show<O: ObjStore>(
    state: &State,
    store: &mut O,
    file: Ino,
    at: &At,
    off: u32,
    len: u32,
) -> Result<Answer, StepFault>
    requires ready { IsReady state.now }
    requires fits { fits (events.Show file at.now off len) ≡ true }
    requires listed { O.ops store.old ≡ applied (past state.now) }
    ensures ok { IfOk result (λ a. Steps state.now state.now (events.Show file at.now off len) a) }
    ensures listed { O.ops store.new ≡ O.ops store.old }
    ensures store { StoreOf (λ s. O.ops s) (λ s. O.faults s) state.now.pages (past state.now)
        (events.Show file at.now off len) store.old store.new result }
    ensures unlogged { IsErrOf result StepFault.Log → ⊥ }
{
    match state.server.shown(file, *at) {
        Shown::Unknown => Ok(Answer::Unknown),
        Shown::Absent => Ok(Answer::NoSnap),
        Shown::Gone => Ok(Answer::Gone),
        Shown::Meta(meta) => {
            if state.client.owed(file, snapshot_of(*at)) {
                return Ok(Answer::Pending);
            }
            let count = shown_count(meta.size, off, len);
            let bytes = read_file(state.alloc, store, file, *at, off, count)?;
            Ok(Answer::Size { meta, bytes })
        }
    }
}

// The snapshot of a state, or None for the present one.
fn snapshot_of(at: At) -> Option<Snap>
    ensures { result ≡ snapshot_of at }
{
    match at {
        At::Head => None,
        At::Snap(snap) => Some(snap),
    }
}

// How many of the bytes that are asked for a file of this size has.
fn shown_count(size: u64, off: u32, len: u32) -> u32
    ensures { result ≡ shown_count size off len }
{
    u64::from(len).min(size.saturating_sub(u64::from(off))) as u32
}
