// What holds of every value of this crate's types, and of an example. The functions do nothing: they
// are there for their contracts.
ghost use Rattle.std.specs.Prelude.{◌≡◌, codes};
ghost use Rattle.cs_leases.specs.declared.lookup.Lookup.TheVariants as lookups;
ghost use Rattle.cs_leases.specs.Example.{said};
ghost use denote.Param.Send.{IsSend};
ghost use Rattle.cs_leases.specs.contracts.leases.Leases as leases_row;
ghost use Rattle.cs_leases.specs.contracts.lookup.Lookup as lookup_row;

/// Two leases: on `x` of directory 1, inode 10,000 until 60, and on `x` of directory 2, inode 7 until
/// 90. The first is hit until its time comes, and has expired from then on, while the second is still
/// hit; on another name there is none.
pub fn lookups_by_example()
    ensures before { said 1 (codes "x") 59 ≡ lookups.Hit 10000 }
    ensures at { said 1 (codes "x") 60 ≡ lookups.Expired 60 }
    ensures after { said 1 (codes "x") 61 ≡ lookups.Expired 60 }
    ensures directory { said 2 (codes "x") 61 ≡ lookups.Hit 7 }
    ensures name { said 1 (codes "y") 0 ≡ lookups.Absent }
{}

/// Values of this crate's types may go to other threads.
pub fn values_may_cross_threads()
    ensures table { IsSend leases_row.the_row }
    ensures answers { IsSend lookup_row.the_row }
{}
