// Laws of flushes. Each is the contract of a function that does nothing.
ghost use Rattle.std.specs.Prelude.{◌≡◌, ℕ, ◌+◌, ◌<◌, ◌≤◌, true, false, max, List, [], ◌∷◌, ◌++◌, filter, length, nat_le, All, Contains};
ghost use Rattle.cs_bits.specs.Bits.{no_caps, file_write, union};
ghost use Rattle.cs_ids.specs.declared.objects.FileMeta.{FileMeta};
ghost use Rattle.cs_flush.specs.declared.sent.Sent.{Sent};
ghost use Rattle.cs_flush.specs.declared.sent.FlushAck.TheVariants as acks;
ghost use Rattle.cs_flush.specs.Flushes.{FileFlushes, IsRising, after_ack, answer, greatest_tid, has_tid, retired, retired_count, started};
ghost use Rattle.cs_flush.specs.Life.{NumbersRise, Step, after, all_sent, greatest_acked};
ghost use Rattle.cs_flush.specs.Example.{mode_flushed, write_flushed};
ghost use denote.Param.Send.{IsSend};
ghost use Rattle.cs_flush.specs.contracts.flushes.Flushes as flushes_row;
ghost use Rattle.cs_flush.specs.contracts.sent.Sent as sent_row;
ghost use Rattle.cs_flush.specs.contracts.sent.FlushAck as flush_ack_row;
ghost use Rattle.cs_flush.specs.contracts.report.FlushReport as flush_report_row;

/// An empty list rises, and each step keeps the order.
pub fn steps_keep_the_order()
    ensures empty { IsRising [] }
    ensures start { (f : FileFlushes) (tid follows : ℕ) (meta : FileMeta) → IsRising f.unacked
        → greatest_tid f.unacked < tid → IsRising (started tid follows meta f).unacked }
    ensures ack { (xs : List Sent) (tid : ℕ) → IsRising xs → IsRising (after_ack tid xs) }
{}

/// Starting a flush makes its number the greatest, and an acknowledgement makes no number greater.
pub fn only_start_raises_the_greatest_number()
    ensures start { (f : FileFlushes) (tid follows : ℕ) (meta : FileMeta)
        → greatest_tid (started tid follows meta f).unacked ≡ max (greatest_tid f.unacked) tid }
    ensures ack { (xs : List Sent) (tid : ℕ) → greatest_tid (after_ack tid xs) ≤ greatest_tid xs }
{}

/// Retiring twice is retiring once, at the greater number.
pub fn retiring_twice_is_retiring_at_the_greater()
    ensures { (xs : List Sent) (s t : ℕ) → retired t (retired s xs) ≡ retired (max s t) xs }
{}

/// The acknowledgement of an unacknowledged flush leaves the flushes with greater numbers and no other.
/// Those that are retired stood in front.
pub fn an_ack_leaves_the_later_flushes()
    ensures gone { (xs : List Sent) (tid : ℕ) → has_tid tid xs ≡ true
        → All (λ x. tid < x.tid) (after_ack tid xs) }
    ensures stays { (xs : List Sent) (tid : ℕ) (x : Sent) → Contains xs x → tid < x.tid
        → Contains (after_ack tid xs) x }
    ensures front { (xs : List Sent) (tid : ℕ) → IsRising xs
        → filter (λ x. nat_le x.tid tid) xs ++ retired tid xs ≡ xs }
{}

/// The acknowledgement of the flush that was started last leaves none.
pub fn an_ack_of_the_last_leaves_none()
    ensures after { (f : FileFlushes) (tid follows : ℕ) (meta : FileMeta) → greatest_tid f.unacked < tid
        → after_ack tid (started tid follows meta f).unacked ≡ [] }
    ensures count { (f : FileFlushes) (tid follows : ℕ) (meta : FileMeta) → greatest_tid f.unacked < tid
        → answer tid (started tid follows meta f).unacked ≡ acks.Retired (length f.unacked + 1) }
{}

/// Where each flush has a greater number than all that were sent before it, those are unacknowledged
/// whose number is above the greatest that was sent and then acknowledged, and no other.
pub fn the_unacked_are_above_the_last_ack()
    ensures { (h : List Step) → NumbersRise h → (after h).unacked ≡ retired (greatest_acked h) (all_sent h) }
{}

/// An example, of two flushes of a file: of its mode in flush 3, and of a write in flush 5, which is
/// acknowledged first.
pub fn two_flushes_by_example()
    ensures start { started 5 1 write_flushed.meta (record { dirty = file_write; unacked = mode_flushed ∷ [] })
        ≡ record { dirty = no_caps; unacked = mode_flushed ∷ write_flushed ∷ [] } }
    ensures first { after_ack 3 (mode_flushed ∷ write_flushed ∷ []) ≡ write_flushed ∷ [] }
    ensures second { after_ack 5 (mode_flushed ∷ write_flushed ∷ []) ≡ [] }
    ensures both { answer 5 (mode_flushed ∷ write_flushed ∷ []) ≡ acks.Retired 2 }
    ensures between { answer 4 (mode_flushed ∷ write_flushed ∷ []) ≡ acks.Unknown }
    ensures kept { after_ack 4 (mode_flushed ∷ write_flushed ∷ []) ≡ mode_flushed ∷ write_flushed ∷ [] }
    ensures late { answer 3 (write_flushed ∷ []) ≡ acks.Unknown }
{}

/// Values of this crate's types may go to other threads.
pub fn values_may_cross_threads()
    ensures flushes { IsSend flushes_row.the_row × IsSend sent_row.the_row × IsSend flush_ack_row.the_row }
    ensures reports { IsSend flush_report_row.the_row }
{}
