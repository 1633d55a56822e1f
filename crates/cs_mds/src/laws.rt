// What holds of the types. The function does nothing: it is there for its contract.
ghost use denote.Param.Send.{IsSend};
ghost use Rattle.cs_mds.specs.contracts.mds.Mds as mds_row;

/// Values of this crate's types may go to other threads.
pub fn values_may_cross_threads()
    ensures { IsSend mds_row.the_row }
{}
