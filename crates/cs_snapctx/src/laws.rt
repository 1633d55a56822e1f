// Laws of contexts. Each is the contract of a function that does nothing.
ghost use Rattle.std.specs.Prelude.{◌≡◌, ℕ, ◌↔◌, List, [], ◌∷◌, Contains};
ghost use Rattle.cs_snapctx.specs.Context.{Context, IsDescending, IsRealmContext, empty_context, merged};
ghost use denote.Param.Send.{IsSend};
ghost use Rattle.cs_snapctx.specs.contracts.context.SnapContext as snap_context_row;
ghost use Rattle.cs_snapctx.specs.contracts.list.SnapList as snap_list_row;
ghost use Rattle.cs_snapctx.specs.contracts.realm.RealmRecord as realm_record_row;

/// Two descending lists that have the same members are equal.
pub fn descending_lists_are_equal()
    ensures { (xs ys : List ℕ) → IsDescending xs → IsDescending ys
        → ((s : ℕ) → Contains xs s ↔ Contains ys s) → xs ≡ ys }
{}

/// `merged` computes a context of the realm.
pub fn merged_is_a_realm_context()
    ensures { (own prior : List ℕ) (own_seq : ℕ) (parent : Context) (since : ℕ)
        → IsRealmContext own prior own_seq parent since (merged own prior own_seq parent since) }
{}

/// A realm has one context only.
pub fn realm_contexts_are_equal()
    ensures { (own prior : List ℕ) (own_seq : ℕ) (parent : Context) (since : ℕ) (a b : Context)
        → IsRealmContext own prior own_seq parent since a
        → IsRealmContext own prior own_seq parent since b → a ≡ b }
{}

/// Two examples. A realm with the snapshots 1 and 3, and 2 of an earlier parent, whose parent has
/// 3, 4 and 5 and covers it from 4 on, has 5 to 1. Where the parent covers it from 6 on, it has its
/// own alone, and `seq` is the number of its own last removal, 9.
pub fn merged_by_example()
    ensures covered { merged (3 ∷ 1 ∷ []) (2 ∷ []) 3 (merged (3 ∷ 5 ∷ 4 ∷ 3 ∷ []) [] 5 empty_context 0) 4
        ≡ record { seq = 5; snaps = 5 ∷ 4 ∷ 3 ∷ 2 ∷ 1 ∷ [] } }
    ensures own_alone { merged (1 ∷ 3 ∷ []) (2 ∷ 3 ∷ []) 9 (record { seq = 5; snaps = 5 ∷ 4 ∷ 3 ∷ [] }) 6
        ≡ record { seq = 9; snaps = 3 ∷ 2 ∷ 1 ∷ [] } }
{}

/// Values of this crate's types may go to other threads.
pub fn values_may_cross_threads()
    ensures contexts { IsSend snap_context_row.the_row × IsSend snap_list_row.the_row }
    ensures records { IsSend realm_record_row.the_row }
{}
