// Laws of queues. Each is the contract of a function that does nothing.
ghost use Rattle.std.specs.Prelude.{◌≡◌, ℕ, ◌<◌, ◌≤◌, ◌||◌, Bool, true, false, max, List, [], ◌∷◌, ◌++◌, Some, None};
ghost use Rattle.cs_ids.specs.declared.objects.FileMeta.{FileMeta};
ghost use Rattle.cs_snapctx.specs.Context.{Context};
ghost use Rattle.cs_capsnap.specs.declared.snap.CapSnap.{CapSnap};
ghost use Rattle.cs_capsnap.specs.declared.snap.Ready.TheVariants as ready;
ghost use Rattle.cs_capsnap.specs.CapSnaps.{can_send, finished, first_unsent, fixed, greatest_tid, has_tid, has_unacked_below, is_writing, queued, readiness, sent_as, unacked, with_first_sent, without_tid};
ghost use Rattle.cs_capsnap.specs.Example.{at_first, at_second, first_ended};
ghost use Rattle.cs_capsnap.specs.Order.{IsInOrder};
ghost use denote.Param.Send.{IsSend};
ghost use Rattle.cs_capsnap.specs.contracts.queue.CapSnaps as cap_snaps_row;
ghost use Rattle.cs_capsnap.specs.contracts.snap.CapSnap as cap_snap_row;
ghost use Rattle.cs_capsnap.specs.contracts.snap.Ready as ready_row;

/// An empty queue is in order, and each step keeps the order.
pub fn steps_keep_the_order()
    ensures empty { IsInOrder [] }
    ensures queue { (xs : List CapSnap) (old : Context) (writing : Bool) (meta : FileMeta) → IsInOrder xs
        → is_writing xs ≡ false → IsInOrder (xs ++ queued old writing meta ∷ []) }
    ensures finish { (xs : List CapSnap) (size mtime : ℕ) → IsInOrder xs
        → IsInOrder (finished size mtime xs) }
    ensures sent { (xs : List CapSnap) (tid : ℕ) → IsInOrder xs → can_send xs ≡ true
        → greatest_tid xs < tid → IsInOrder (with_first_sent tid xs) }
    ensures acked { (xs : List CapSnap) (tid : ℕ) → IsInOrder xs → IsInOrder (without_tid tid xs) }
{}

/// Only sending makes the greatest number of a flush greater, and no greater than its own.
pub fn only_sending_raises_the_greatest_number()
    ensures queue { (xs : List CapSnap) (old : Context) (writing : Bool) (meta : FileMeta)
        → greatest_tid (xs ++ queued old writing meta ∷ []) ≡ greatest_tid xs }
    ensures finish { (xs : List CapSnap) (size mtime : ℕ)
        → greatest_tid (finished size mtime xs) ≡ greatest_tid xs }
    ensures sent { (xs : List CapSnap) (tid : ℕ)
        → greatest_tid (with_first_sent tid xs) ≤ max tid (greatest_tid xs) }
    ensures acked { (xs : List CapSnap) (tid : ℕ) → greatest_tid (without_tid tid xs) ≤ greatest_tid xs }
{}

/// Writing begins where a cap snap is queued, and ends by `finish`.
pub fn writing_lasts_until_finish()
    ensures queue { (xs : List CapSnap) (old : Context) (writing : Bool) (meta : FileMeta)
        → is_writing (xs ++ queued old writing meta ∷ []) ≡ (is_writing xs || writing) }
    ensures finish { (xs : List CapSnap) (size mtime : ℕ) → is_writing (finished size mtime xs) ≡ false }
    ensures sent { (xs : List CapSnap) (tid : ℕ) → is_writing (with_first_sent tid xs) ≡ is_writing xs }
    ensures acked { (xs : List CapSnap) (tid : ℕ) → IsInOrder xs
        → is_writing (without_tid tid xs) ≡ is_writing xs }
{}

/// In a queue that is in order only the last cap snap may be writing.
pub fn only_the_last_is_writing()
    ensures { (xs : List CapSnap) (x : CapSnap) → IsInOrder (xs ++ x ∷ []) → is_writing xs ≡ false }
{}

/// The end of a writing changes the last cap snap alone.
pub fn finish_changes_the_last_alone()
    ensures { (xs : List CapSnap) (x : CapSnap) (size mtime : ℕ) → is_writing xs ≡ false
        → finished size mtime (xs ++ x ∷ []) ≡ xs ++ fixed size mtime x ∷ [] }
{}

/// Sending changes the first unsent cap snap alone, and of that its number alone.
pub fn sent_changes_the_first_unsent_alone()
    ensures { (xs ys : List CapSnap) (x : CapSnap) (tid : ℕ) → first_unsent xs ≡ None → x.tid ≡ None
        → with_first_sent tid (xs ++ x ∷ ys) ≡ xs ++ sent_as tid x ∷ ys }
{}

/// An acknowledgement takes out the cap snap of its number alone.
pub fn acked_takes_out_one_alone()
    ensures { (xs ys : List CapSnap) (x : CapSnap) (tid : ℕ) → has_tid tid xs ≡ false → x.tid ≡ Some tid
        → without_tid tid (xs ++ x ∷ ys) ≡ xs ++ ys }
{}

/// An example, of two snapshots of a file. A writer lives over the first, and writes on from 10 to 20
/// bytes; it ends at time 5, before the second. The first cap snap is sent in flush 8, and acked.
pub fn two_snapshots_by_example()
    ensures open { readiness 0 (first_unsent (at_first ∷ [])) ≡ ready.Writing }
    ensures finish { finished 20 5 (at_first ∷ []) ≡ first_ended ∷ [] }
    ensures first { readiness 0 (first_unsent (first_ended ∷ at_second ∷ []))
        ≡ ready.Ready first_ended.meta 0 }
    ensures sent { with_first_sent 8 (first_ended ∷ at_second ∷ []) ≡ sent_as 8 first_ended ∷ at_second ∷ [] }
    ensures second { readiness 3 (first_unsent (sent_as 8 first_ended ∷ at_second ∷ [])) ≡ ready.PagesLeft 3 }
    ensures unacked { unacked (sent_as 8 first_ended ∷ at_second ∷ []) ≡ (8, 0, first_ended.meta) ∷ [] }
    ensures acked { without_tid 8 (sent_as 8 first_ended ∷ at_second ∷ []) ≡ at_second ∷ [] }
    ensures below { has_unacked_below 2 (at_second ∷ []) ≡ true }
    ensures at { has_unacked_below 1 (at_second ∷ []) ≡ false }
{}

/// Values of this crate's types may go to other threads.
pub fn values_may_cross_threads()
    ensures queue { IsSend cap_snaps_row.the_row }
    ensures snaps { IsSend cap_snap_row.the_row × IsSend ready_row.the_row }
{}
