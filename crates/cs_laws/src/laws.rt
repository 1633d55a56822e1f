// What holds of the types. The function does nothing: it is there for its contract.
ghost use denote.Param.Send.{IsSend};
ghost use Rattle.cs_laws.specs.contracts.answers.Answer as answer_row;
ghost use Rattle.cs_laws.specs.contracts.answers.Entry as entry_row;
ghost use Rattle.cs_laws.specs.contracts.events.Event as event_row;
ghost use Rattle.cs_laws.specs.contracts.messages.Message as message_row;
ghost use Rattle.cs_laws.specs.contracts.records.Record as record_row;
ghost use Rattle.cs_laws.specs.contracts.objects.ObjOp as obj_op_row;

/// Values of this crate's types may go to other threads.
pub fn values_may_cross_threads()
    ensures entries { IsSend answer_row.the_row × IsSend entry_row.the_row × IsSend event_row.the_row }
    ensures messages { IsSend message_row.the_row × IsSend record_row.the_row }
    ensures objects { IsSend obj_op_row.the_row }
{}
