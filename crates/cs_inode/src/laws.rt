// Laws of files. Each is the contract of a function that does nothing.
ghost use Rattle.std.specs.Prelude.{◌≡◌, ℕ, ◌+◌, ◌≤◌, true, List, Some, length, slice_get, All};
ghost use Rattle.cs_laws.specs.declared.objects.ObjOp.{ObjOp};
ghost use Rattle.cs_laws.specs.Fits.{is_write};
ghost use Rattle.cs_inode.specs.Inodes.{FileInode, write_operations};
ghost use denote.Param.Send.{IsSend};
ghost use Rattle.cs_inode.specs.contracts.inode.Inode as inode_row;
ghost use Rattle.cs_inode.specs.contracts.answers.WriteStep as write_step_row;

/// A write has at most two operations, with the numbers from the first on, and each of them fits into
/// its object.
pub fn operations_fit_their_objects()
    ensures few { (tid off : ℕ) (bytes : List ℕ) (i : FileInode) → is_write off bytes ≡ true → length (write_operations tid off bytes i) ≤ 2 }
    ensures numbers { (tid off : ℕ) (bytes : List ℕ) (i : FileInode) (k : ℕ) (op : ObjOp) → slice_get (write_operations tid off bytes i) k ≡ Some op → op.tid ≡ tid + k }
    ensures fit { (tid off : ℕ) (bytes : List ℕ) (i : FileInode) → is_write off bytes ≡ true → All (λ op. op.off + length op.bytes ≤ 65536) (write_operations tid off bytes i) }
{}

/// Values of this crate's types may go to other threads.
pub fn values_may_cross_threads()
    ensures files { IsSend inode_row.the_row }
    ensures answers { IsSend write_step_row.the_row }
{}
