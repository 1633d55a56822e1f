// Does the events of a script.
ghost use Rattle.std.specs.Prelude.{◌≡◌, ◌+◌, ◌<◌, ◌≤◌, true, List, [], length, nat_lt, IfOk};
ghost use Rattle.cs_geom.specs.declared.places.TheConstants.{OBJECT_SIZE};
ghost use Rattle.cs_laws.specs.Answers.{bytes_from};
ghost use Rattle.cs_trim.specs.Objects.{object_byte};
ghost use Rattle.cs_trim.specs.Steps.{Step};
ghost use Rattle.cs_trim_script.specs.Fits.{fits};
ghost use Rattle.cs_trim_script.specs.Runs.{Answers, RunsFor};

use crate::{Answer, Event};
use cs_ids::{Bytes, Memory, Snap};
use cs_laws::At;
use cs_trim::{Removed, TrimRead, TrimStore};
use std::alloc::Global;

/// A store to which the events of a script are done, and how often it was written to.
#[derive(Drop)]
pub struct TrimRun {
    store: TrimStore,
    writes: u32,
    alloc: Global,
}

impl TrimRun {
    /// No event was done. It takes no memory.
    pub fn new(alloc: Global) -> Self
        ensures { RunsFor [] result }
    {
        TrimRun {
            store: TrimStore::new(alloc),
            writes: 0,
            alloc,
        }
    }

    /// Does an event that fits a script. Fewer than 10,000 numbers were drawn, and fewer than 10,000
    /// writes done. After `Memory` nothing is said of the run.
    pub fn step(&mut self, event: &Event) -> Result<Answer, Memory>
        requires fits { fits event.now ≡ true }
        requires numbers { length self.old.store.numbers < 10000 }
        requires writes { self.old.writes < 10000 }
        ensures { IfOk result (Answers event.now self.old self.new) }
    {
        match event {
            Event::Snap => self.snap(),
            Event::RmSnap { snap } => self.remove(*snap),
            Event::Write { object, off, bytes } => self.write(*object, *off, bytes),
            Event::Trim => Ok(self.trim()),
            Event::Clones { object } => Ok(self.clones(*object)),
            Event::Read {
                object,
                at,
                off,
                len,
            } => self.read(*object, *at, *off, *len),
        }
    }

    fn snap(&mut self) -> Result<Answer, Memory>
        requires { length self.old.store.numbers < 10000 }
        ensures { IfOk result (Answers Event.Snap self.old self.new) }
    {
        let snap = self.store.snap()?;
        Ok(Answer::Snap { snap })
    }

    fn remove(&mut self, snap: Snap) -> Result<Answer, Memory>
        requires { length self.old.store.numbers < 10000 }
        ensures { IfOk result (Answers (Event.RmSnap snap) self.old self.new) }
    {
        match self.store.remove(snap)? {
            Removed::NoSnap => Ok(Answer::NoSnap),
            Removed::Gone => Ok(Answer::Gone),
            Removed::Removed { number } => Ok(Answer::Removed { snap, number }),
        }
    }

    fn write(&mut self, object: u32, off: u32, bytes: &Bytes) -> Result<Answer, Memory>
        requires object { object < 64 }
        requires within { off + length bytes.now ≤ OBJECT_SIZE }
        requires room { self.old.writes < 10000 }
        ensures { IfOk result (Answers (Event.Write object off bytes.now) self.old self.new) }
    {
        self.store.write(object, off, bytes.as_slice())?;
        self.writes += 1;
        Ok(Answer::Wrote {
            number: self.writes,
        })
    }

    fn trim(&mut self) -> Answer
        ensures { Answers Event.Trim self.old self.new result }
    {
        let count = self.store.trim();
        Answer::Trimmed { count }
    }

    fn clones(&mut self, object: u32) -> Answer
        requires { object < 64 }
        ensures { Answers (Event.Clones object) self.old self.new result }
    {
        let count = self.store.clones(object);
        Answer::Clones { count }
    }

    fn read(&mut self, object: u32, at: At, off: u32, len: u32) -> Result<Answer, Memory>
        requires object { object < 64 }
        requires within { off + len ≤ OBJECT_SIZE }
        ensures { IfOk result (Answers (Event.Read object at off len) self.old self.new) }
    {
        let mut bytes = vec![in self.alloc; 0u8; len as usize]?;
        match self.store.read(object, at, off, bytes.as_mut_slice()) {
            TrimRead::NoSnap => Ok(Answer::NoSnap),
            TrimRead::Gone => Ok(Answer::Gone),
            TrimRead::Read => Ok(Answer::Bytes {
                bytes: Bytes::from_vec(bytes),
            }),
        }
    }
}
