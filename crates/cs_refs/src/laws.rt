// What holds of every value of this crate's types.
ghost use denote.Param.Send.{IsSend};
ghost use Rattle.cs_refs.specs.contracts.table.Refs as refs_row;
ghost use Rattle.cs_refs.specs.contracts.fault.RefFault as ref_fault_row;

/// Values of this crate's types may go to other threads.
pub fn values_may_cross_threads()
    ensures table { IsSend refs_row.the_row }
    ensures faults { IsSend ref_fault_row.the_row }
{}
