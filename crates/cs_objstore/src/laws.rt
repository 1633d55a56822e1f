// What holds of the types. The function does nothing: it is there for its contract.
ghost use denote.Param.Send.{IsSend};
ghost use Rattle.cs_objstore.specs.contracts.memory.MemStore as mem_store_row;
ghost use Rattle.cs_objstore.specs.contracts.faulty.FaultyStore as faulty_store_row;

/// Values of this crate's types may go to other threads.
pub fn values_may_cross_threads()
    ensures { IsSend mem_store_row.the_row × IsSend faulty_store_row.the_row }
{}
