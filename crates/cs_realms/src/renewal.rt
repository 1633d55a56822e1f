// The contexts that a record renews: they are computed first, and then put in without memory.
ghost use Rattle.std.specs.Prelude.{◌≡◌, ◌+◌, ◌≤◌, ◌++◌, map, length, vec_len, vec_capacity, IfOk};
ghost use Rattle.cs_snapctx.specs.Contexts.{all_contexts, context_of};
ghost use Rattle.cs_realms.specs.Renewals.{leads_clear, news, put_all, renewed, answered_changes};

use crate::Change;
use crate::context::context_with;
use crate::record::{newest, record_of};
use cs_ids::{Ino, Memory};
use cs_snapctx::{RealmRecord, SnapContext};
use std::alloc::Global;
use std::mem;

// A new context, twice.
#[derive(Drop)]
pub struct Renewed {
    // For the table.
    pub kept: SnapContext,
    // For the answer.
    pub answered: SnapContext,
}

impl Renewed {
    // This context, and a copy of it.
    pub fn of(kept: SnapContext) -> Result<Self, Memory>
        ensures { IfOk result (λ n. n ≡ record { kept = kept; answered = kept }) }
    {
        let answered = kept.copy()?;
        Ok(Renewed { kept, answered })
    }
}

// The contexts that differ once `latest` is taken in, each at the place of its realm's record. Those of
// realms that are neither its realm nor below it are not computed, unless they stand in a circle.
pub fn renewed_contexts(
    alloc: Global,
    records: &[RealmRecord],
    contexts: &[SnapContext],
    latest: &RealmRecord,
) -> Result<Vec<Option<Renewed>>, Memory>
    requires { contexts.now ≡ all_contexts records.now }
    ensures { IfOk result (λ ws. ws.items ≡ map (renewed latest.now records.now) records.now) }
{
    let mut all = Vec::new(alloc);
    for (place, last) in records.iter().enumerate() {
        let one = renewed_context(alloc, records, latest, last, &contexts[place])?;
        all.push(one)?;
    }
    Ok(all)
}

// The context of the realm of `last` where it differs from `before` once `latest` is taken in.
fn renewed_context(
    alloc: Global,
    records: &[RealmRecord],
    latest: &RealmRecord,
    last: &RealmRecord,
    before: &SnapContext,
) -> Result<Option<Renewed>, Memory>
    requires { before.now ≡ context_of records.now last.now }
    ensures { IfOk result (λ w. w ≡ renewed latest.now records.now last.now) }
{
    if leads_clear(records, records.len(), latest.realm, last) {
        return Ok(None);
    }
    let now = context_with(alloc, records, latest, newest(latest, last))?;
    news(before, now)
}

// The new context twice, where it isn't as before.
fn news(before: &SnapContext, now: SnapContext) -> Result<Option<Renewed>, Memory>
    ensures { IfOk result (λ w. w ≡ news before.now now) }
{
    if *before == now {
        return Ok(None);
    }
    Ok(Some(Renewed::of(now)?))
}

// Whether going up from the realm of `from` ends within so many realms, none of which is `realm`.
fn leads_clear(records: &[RealmRecord], most: usize, realm: Ino, from: &RealmRecord) -> bool
    ensures { result ≡ leads_clear most records.now realm from.now }
{
    if most == 0 || from.realm == realm {
        return false;
    }
    let Some(parent) = from.parent else {
        return true;
    };
    match record_of(records, parent) {
        None => false,
        Some(above) => leads_clear(records, most - 1, realm, above),
    }
}

// Puts the renewed contexts in their places, and adds the changes, for which there is room. It takes no
// memory.
pub fn put_in(
    records: &[RealmRecord],
    contexts: &mut Vec<SnapContext>,
    mut renewed: Vec<Option<Renewed>>,
    changes: &mut Vec<Change>,
)
    requires records { length records.now ≡ vec_len renewed }
    requires contexts { vec_len renewed ≤ vec_len contexts.old }
    requires room { vec_len changes.old + vec_len renewed ≤ vec_capacity changes.old }
    ensures contexts { contexts.new.items ≡ put_all renewed.items contexts.old.items }
    ensures changes { changes.new.items
        ≡ changes.old.items ++ answered_changes records.now renewed.items contexts.old.items }
    ensures room { vec_capacity changes.new ≡ vec_capacity changes.old }
    ensures growth { vec_len changes.new ≤ vec_len changes.old + vec_len renewed }
{
    for place in 0..records.len() {
        if let Some(one) = renewed[place].take() {
            let old = mem::replace(&mut contexts[place], one.kept);
            changes.push_reserved(Change {
                realm: records[place].realm,
                old: Some(old),
                new: one.answered,
            });
        }
    }
}
