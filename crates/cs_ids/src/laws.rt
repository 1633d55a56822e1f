// What holds of every value of this crate's types.
ghost use Rattle.std.specs.Prelude.{◌≡◌, [], codes, true, false};
ghost use Rattle.cs_ids.specs.Names.{is_name};
ghost use denote.Param.Send.{IsSend};
ghost use Rattle.cs_ids.specs.contracts.bytes.Bytes as bytes_row;
ghost use Rattle.cs_ids.specs.contracts.devices.Failed as failed_row;
ghost use Rattle.cs_ids.specs.contracts.memory.Memory as memory_row;
ghost use Rattle.cs_ids.specs.contracts.names.Name as name_row;
ghost use Rattle.cs_ids.specs.contracts.numbers.Caller as caller_row;
ghost use Rattle.cs_ids.specs.contracts.numbers.Ino as ino_row;
ghost use Rattle.cs_ids.specs.contracts.numbers.RefNo as ref_no_row;
ghost use Rattle.cs_ids.specs.contracts.numbers.Seq as seq_row;
ghost use Rattle.cs_ids.specs.contracts.numbers.Snap as snap_row;
ghost use Rattle.cs_ids.specs.contracts.numbers.Tid as tid_row;
ghost use Rattle.cs_ids.specs.contracts.objects.FileMeta as file_meta_row;
ghost use Rattle.cs_ids.specs.contracts.objects.Obj as obj_row;

/// Values of this crate's types may go to other threads.
pub fn values_may_cross_threads()
    ensures numbers { IsSend ino_row.the_row × IsSend snap_row.the_row × IsSend seq_row.the_row
        × IsSend tid_row.the_row × IsSend ref_no_row.the_row × IsSend caller_row.the_row }
    ensures lists { IsSend bytes_row.the_row × IsSend name_row.the_row }
    ensures objects { IsSend obj_row.the_row × IsSend file_meta_row.the_row }
    ensures faults { IsSend failed_row.the_row × IsSend memory_row.the_row }
{}

/// A name, and bytes that are none: no byte at all, and one that may not come first.
pub fn names_by_example()
    ensures name { is_name (codes "a-1.b") ≡ true }
    ensures nothing { is_name [] ≡ false }
    ensures first { is_name (codes "-a") ≡ false }
{}
