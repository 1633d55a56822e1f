// What holds of every value of this crate's types.
ghost use denote.Param.Send.{IsSend};
ghost use Rattle.cs_caps.specs.contracts.client.Cap as cap_row;
ghost use Rattle.cs_caps.specs.contracts.server.Held as held_row;
ghost use Rattle.cs_caps.specs.contracts.client.Done as done_row;

/// Values of this crate's types may go to other threads.
pub fn values_may_cross_threads()
    ensures ends { IsSend cap_row.the_row × IsSend held_row.the_row }
    ensures answers { IsSend done_row.the_row }
{}
