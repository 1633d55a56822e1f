// What holds of every value of this crate's types.
ghost use denote.Param.Send.{IsSend};
ghost use Rattle.cs_parts.specs.contracts.capabilities.ClientCaps as client_caps_row;
ghost use Rattle.cs_parts.specs.contracts.capabilities.ServerCaps as server_caps_row;
ghost use Rattle.cs_parts.specs.contracts.references.Live as live_row;

/// Values of this crate's types may go to other threads.
pub fn values_may_cross_threads()
    ensures caps { IsSend client_caps_row.the_row × IsSend server_caps_row.the_row }
    ensures references { IsSend live_row.the_row }
{}
