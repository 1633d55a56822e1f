// The contexts as they are once a record is taken in, computed from the records alone.
ghost use Rattle.std.specs.Prelude.{◌≡◌, IfOk};
ghost use Rattle.cs_snapctx.specs.Contexts.{context_of, context_within, under};
ghost use Rattle.cs_snapctx.specs.Records.{with_record};

use crate::record::{count_with, parent_record_with};
use cs_ids::Memory;
use cs_snapctx::{RealmRecord, SnapContext};
use std::alloc::Global;

// The context of the realm of `from`, once `latest` is taken in.
pub fn context_with(
    alloc: Global,
    records: &[RealmRecord],
    latest: &RealmRecord,
    from: &RealmRecord,
) -> Result<SnapContext, Memory>
    ensures { IfOk result (λ c. c ≡ context_of (with_record latest.now records.now) from.now) }
{
    let most = count_with(records, latest);
    context_within(alloc, records, latest, most, from)
}

// The same, made of so many realms at most: itself and those above it.
fn context_within(
    alloc: Global,
    records: &[RealmRecord],
    latest: &RealmRecord,
    most: usize,
    from: &RealmRecord,
) -> Result<SnapContext, Memory>
    ensures { IfOk result (λ c. c ≡ context_within most (with_record latest.now records.now) from.now) }
{
    if most == 0 {
        return Ok(SnapContext::empty(alloc));
    }
    match parent_record_with(records, latest, from) {
        None => under(alloc, &SnapContext::empty(alloc), from),
        Some(parent) => {
            let above = context_within(alloc, records, latest, most - 1, parent)?;
            under(alloc, &above, from)
        }
    }
}

// The context of a record's realm, whose parent has the context `above`.
fn under(alloc: Global, above: &SnapContext, latest: &RealmRecord) -> Result<SnapContext, Memory>
    ensures { IfOk result (λ c. c ≡ under above.now latest.now) }
{
    SnapContext::merge(
        alloc,
        latest.own.as_slice(),
        latest.prior.as_slice(),
        latest.own_seq,
        above,
        latest.since,
    )
}
