// What holds of the types. The function does nothing: it is there for its contract.
ghost use denote.Param.Send.{IsSend};
ghost use Rattle.cs_tree.specs.contracts.directories.Directories as directories_row;
ghost use Rattle.cs_tree.specs.contracts.directories.Directory as directory_row;
ghost use Rattle.cs_tree.specs.contracts.path.DirPath as dir_path_row;

/// Values of this crate's types may go to other threads.
pub fn values_may_cross_threads()
    ensures directories { IsSend directories_row.the_row × IsSend directory_row.the_row }
    ensures paths { IsSend dir_path_row.the_row }
{}
