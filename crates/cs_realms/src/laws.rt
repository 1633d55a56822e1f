// Laws of records and contexts. Each is the contract of a function that does nothing.
ghost use Rattle.std.specs.Prelude.{◌≡◌, ℕ, List, [], ◌∷◌, Some, if◌then◌else◌};
ghost use Rattle.cs_snapctx.specs.declared.realm.RealmRecord.{RealmRecord};
ghost use Rattle.cs_realms.specs.Changes.{changes};
ghost use Rattle.cs_snapctx.specs.Contexts.{context};
ghost use Rattle.cs_realms.specs.Example.{child, grandchild, root_with_two};
ghost use Rattle.cs_snapctx.specs.Records.{is_of, record_of, root_record, with_record};
ghost use Rattle.cs_snapctx.specs.Trees.{AreContexts, HasRoomFor, IsAcyclic};
ghost use denote.Param.Send.{IsSend};
ghost use Rattle.cs_realms.specs.contracts.realms.Realms as realms_row;
ghost use Rattle.cs_realms.specs.contracts.changed.Change as change_row;
ghost use Rattle.cs_realms.specs.contracts.fault.RealmFault as realm_fault_row;

/// The last record of its realm counts, and those of the other realms stay.
pub fn the_last_record_counts()
    ensures { (i : ℕ) (r : RealmRecord) (rs : List RealmRecord)
        → record_of i (with_record r rs) ≡ (if is_of i r then Some r else record_of i rs) }
{}

/// Where going up from any realm ends, the context of each is made of its record and of its parent's
/// context, or of the empty one where it has no parent.
pub fn contexts_follow_the_rule()
    ensures { (rs : List RealmRecord) → IsAcyclic rs → AreContexts rs (context rs) }
{}

/// Going up ends at first, and does so again after each record whose parent is known and is neither its
/// realm nor below it.
pub fn records_keep_it_acyclic()
    ensures first { IsAcyclic (root_record ∷ []) }
    ensures each { (rs : List RealmRecord) (r : RealmRecord) → IsAcyclic rs → HasRoomFor rs r
        → IsAcyclic (with_record r rs) }
{}

/// The root takes snapshot 2 over directory 2, which has snapshot 1 and is covered from 1 on. Then
/// snapshot 1 is removed. Where it is covered from 3 on, snapshot 2 doesn't cover it.
pub fn contexts_by_example()
    ensures covered { context (root_with_two ∷ child 1 1 (1 ∷ []) ∷ grandchild ∷ []) 3
        ≡ Some (record { seq = 2; snaps = 2 ∷ 1 ∷ [] }) }
    ensures removed { context (root_with_two ∷ child 1 3 [] ∷ grandchild ∷ []) 3
        ≡ Some (record { seq = 3; snaps = 2 ∷ [] }) }
    ensures later { context (root_with_two ∷ child 3 1 (1 ∷ []) ∷ []) 2
        ≡ Some (record { seq = 2; snaps = 1 ∷ [] }) }
    ensures below { changes (root_record ∷ child 1 1 [] ∷ []) (root_with_two ∷ child 1 1 [] ∷ [])
        ≡ record { realm = 1; old = Some (record { seq = 0; snaps = [] }); new = record { seq = 2; snaps = 2 ∷ [] } }
        ∷ record { realm = 2; old = Some (record { seq = 1; snaps = [] }); new = record { seq = 2; snaps = 2 ∷ [] } }
        ∷ [] }
{}

/// Values of this crate's types may go to other threads.
pub fn values_may_cross_threads()
    ensures tree { IsSend realms_row.the_row }
    ensures changes { IsSend change_row.the_row }
    ensures faults { IsSend realm_fault_row.the_row }
{}
