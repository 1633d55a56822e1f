// What holds of every value of this crate's types.
ghost use denote.Param.Send.{IsSend};
ghost use Rattle.cs_requests.specs.contracts.requests.OpenReq as open_row;
ghost use Rattle.cs_requests.specs.contracts.requests.Requests as requests_row;

/// Values of this crate's types may go to other threads.
pub fn values_may_cross_threads()
    ensures requests { IsSend requests_row.the_row }
    ensures open { IsSend open_row.the_row }
{}
