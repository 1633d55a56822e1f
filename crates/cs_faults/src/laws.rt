// What holds of every value of this crate's types.
ghost use denote.Param.Send.{IsSend};
ghost use Rattle.cs_faults.specs.contracts.count.FaultCount as fault_count_row;
ghost use Rattle.cs_faults.specs.contracts.plan.FaultPlan as fault_plan_row;

/// Values of this crate's types may go to other threads.
pub fn values_may_cross_threads()
    ensures count { IsSend fault_count_row.the_row }
    ensures plan { IsSend fault_plan_row.the_row }
{}
