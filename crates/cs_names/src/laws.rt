// What holds of every value of this crate's types.
ghost use denote.Param.Send.{IsSend};
ghost use Rattle.cs_names.specs.contracts.names.Names as names_row;
ghost use Rattle.cs_names.specs.contracts.setup.SetupStep as setup_step_row;

/// Values of this crate's types may go to other threads.
pub fn values_may_cross_threads()
    ensures names { IsSend names_row.the_row }
    ensures steps { IsSend setup_step_row.the_row }
{}
