// Laws of the operations. Each is the contract of a function that does nothing.
ghost use Rattle.std.specs.Prelude.{◌≡◌, ◌==◌, ℕ, List, true, false, Some, if◌then◌else◌};
ghost use Rattle.std.specs.Option.{option_map};
ghost use denote.Param.Send.{IsSend};
ghost use Rattle.cs_states.specs.declared.delivery.Delivery.{Delivery};
ghost use Rattle.cs_states.specs.declared.delivery.Reply.TheVariants as replies;
ghost use Rattle.cs_states.specs.declared.delivery.Resend.TheVariants as resends;
ghost use Rattle.cs_states.specs.Delivery.{after_arrival, after_loss, after_reply, after_resend, reply_to, resend_answer, sent_once};
ghost use Rattle.cs_writeback.specs.contracts.operations.OpsInFlight as operations_row;
ghost use Rattle.cs_writeback.specs.declared.operations.SentOp.{SentOp};
ghost use Rattle.cs_writeback.specs.Operations.{TakesStep, delivery_at};

/// Where an operation goes a step, its delivery does, and no other.
pub fn a_step_is_of_one_operation()
    ensures { (old new : List (ℕ × SentOp)) (t : ℕ) (step : Delivery → Delivery) → TakesStep old new t step
        → (u : ℕ) → delivery_at new u ≡ (if u == t then option_map step (delivery_at old t) else delivery_at old u) }
{}

/// An example: the only copy of an operation is lost, and it is sent again. That copy comes to the
/// store, and the reply acknowledges it. Then it is too late to send it once more.
pub fn a_lost_copy_by_example()
    ensures lost { after_loss false sent_once ≡ record { copies = 0; replies = 0; acked = false } }
    ensures silent { reply_to (Some (after_loss false sent_once)) ≡ replies.Unknown }
    ensures again { resend_answer (Some (after_loss false sent_once)) ≡ resends.Sent }
    ensures resent { after_resend (after_loss false sent_once) ≡ sent_once }
    ensures replied { reply_to (Some (after_arrival sent_once)) ≡ replies.First }
    ensures acked { after_reply (after_arrival sent_once) ≡ record { copies = 0; replies = 0; acked = true } }
    ensures late { resend_answer (Some (after_reply (after_arrival sent_once))) ≡ resends.Late }
{}

/// The operations may go to another thread.
pub fn operations_may_cross_threads()
    ensures { IsSend operations_row.the_row }
{}
