// From which number on the snapshots of realms above cover a directory.
ghost use Rattle.std.specs.Prelude.{◌≡◌, ◌+◌, ◌<◌, ℕ, None, Some, max, OnOk, OnErr};
ghost use Rattle.cs_laws.specs.Made.{made_by, makes_dir};
ghost use Rattle.cs_records.specs.Sinces.{first_of, made_in_table, since_in, with_directory};

use cs_ids::{Ino, Memory, Snap};
use cs_laws::{OpAnswer, ReqOp};
use std::alloc::Global;
use std::collections::BTreeMap;

// The numbers from which on the snapshots of realms above cover the directories that requests made: one
// more than the greatest number that was drawn before. A directory of a setup line is covered from 1 on.
#[derive(Drop)]
pub struct Sinces {
    // The greatest number that a snapshot or a removal drew.
    pub greatest: u64,
    pub made: BTreeMap<Ino, Snap>,
}

impl Sinces {
    // No number was drawn, and no request made a directory. It takes no memory.
    pub fn new(alloc: Global) -> Self
        ensures greatest { result.greatest ≡ 0 }
        ensures made { (d : ℕ) → made_in_table result d ≡ None }
    {
        Sinces {
            greatest: 0,
            made: BTreeMap::new(alloc),
        }
    }

    // The number from which on snapshots above cover a directory. It takes no memory.
    pub fn of(&self, dir: Ino) -> Snap
        ensures { result ≡ since_in self.now dir }
    {
        match self.made.get(&dir) {
            Some(since) => *since,
            None => Snap::after(0),
        }
    }

    // A snapshot or a removal draws a number.
    pub fn draw(&mut self, number: Snap)
        ensures greatest { self.new.greatest ≡ max self.old.greatest number }
        ensures made { self.new.made ≡ self.old.made }
    {
        self.greatest = self.greatest.max(number.get());
    }

    // A request makes a directory, unless one did before. After `Memory` all is as before.
    pub fn make(&mut self, dir: Ino) -> Result<(), Memory>
        requires { self.old.greatest < 99999 }
        ensures greatest { self.new.greatest ≡ self.old.greatest }
        ensures ok { OnOk result ((d : ℕ) → made_in_table self.new d ≡ with_directory dir self.old.greatest (made_in_table self.old) d) }
        ensures err { OnErr result ((d : ℕ) → made_in_table self.new d ≡ made_in_table self.old d) }
    {
        if !self.made.contains_key(&dir) {
            self.made.insert(dir, Snap::after(self.greatest))?;
        }
        Ok(())
    }

    // A request was answered, which may have made a directory. After `Memory` all is as before.
    pub fn answer(&mut self, op: &ReqOp, answer: &OpAnswer) -> Result<(), Memory>
        requires { self.old.greatest < 99999 }
        ensures greatest { self.new.greatest ≡ self.old.greatest }
        ensures ok { OnOk result ((d : ℕ) → made_in_table self.new d ≡ first_of (made_in_table self.old d) (makes_dir d (made_by (Some op.now) answer.now)) self.old.greatest) }
        ensures err { OnErr result ((d : ℕ) → made_in_table self.new d ≡ made_in_table self.old d) }
    {
        match (op, answer) {
            (ReqOp::Mkdir { .. }, OpAnswer::Made(dir)) => self.make(*dir),
            _ => Ok(()),
        }
    }
}
