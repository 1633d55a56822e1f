// The store.
ghost use Rattle.std.specs.Prelude.{◌≡◌, ◌+◌, ◌<◌, ◌≤◌, List, [], length, slice_index, EachIndex, IfOk, OnOk, OnErr};
ghost use Rattle.cs_geom.specs.declared.places.TheConstants.{OBJECT_SIZE};
ghost use Rattle.cs_trim.specs.Blocks.{byte_in};
ghost use Rattle.cs_trim.specs.Clones.{kept, given_up};
ghost use Rattle.cs_trim.specs.Steps.{Step, taken, removed, wrote, trimmed};
ghost use Rattle.cs_trim.specs.Held.{dropped_below, image_at, object_at, status_of, SameObjects, TrimsObjects, WritesObject};
ghost use Rattle.cs_trim.specs.Stands.{EachServes, Follows, Keeps, Reads, Removes, StandsFor};
ghost use Rattle.cs_trim.specs.declared.store.TheConstants.{OBJECT_COUNT};

use crate::numbers::{Numbers, SnapStatus};
use crate::object::Object;
use crate::{Removed, TrimRead};
use cs_ids::{Memory, Snap};
use cs_laws::At;
use std::alloc::Global;
use std::marker::Model;

/// The objects of a store.
pub const OBJECT_COUNT: u32 = 64;

/// A store that gives up clones. Contracts see the status of each number that was drawn, and each
/// object's head and clones; and they speak of all lists of steps that the store stands for.
#[derive(Drop)]
pub struct TrimStore {
    numbers: Numbers,
    objects: Vec<Object>,
    alloc: Global,
}

impl Model for TrimStore {
    ghost use Rattle.std.specs.Prelude.{◌≤◌, length};
    ghost use Rattle.cs_trim.specs.Held.{StoreState};

    ghost Value = { StoreState };

    ghost view = { λ s. record { numbers = s.numbers; objects = s.objects.items } };

    ghost invariant = { λ s. length s.objects.items ≤ 64 };
}

impl TrimStore {
    /// A store to which nothing was done. It takes no memory.
    pub fn new(alloc: Global) -> Self
        ensures { StandsFor [] result }
    {
        TrimStore {
            numbers: Numbers::new(alloc),
            objects: Vec::new(alloc),
            alloc,
        }
    }

    /// Takes a snapshot. Fewer than 10,000 numbers were drawn. After `Memory` the store is as before.
    pub fn snap(&mut self) -> Result<Snap, Memory>
        requires { length self.old.numbers < 10000 }
        ensures number { IfOk result (λ s. s ≡ length self.old.numbers + 1) }
        ensures follows { OnOk result (Follows taken self.old self.new) }
        ensures err { OnErr result (self.new ≡ self.old) }
    {
        self.numbers.take()
    }

    /// Removes a snapshot. Fewer than 10,000 numbers were drawn. After `Memory` the store is as before.
    pub fn remove(&mut self, s: Snap) -> Result<Removed, Memory>
        requires { length self.old.numbers < 10000 }
        ensures removes { IfOk result (λ r. Removes r s self.old self.new) }
        ensures err { OnErr result (self.new ≡ self.old) }
    {
        match self.numbers.status(s.get()) {
            SnapStatus::NoSnap => Ok(Removed::NoSnap),
            SnapStatus::Gone => Ok(Removed::Gone),
            SnapStatus::Standing => {
                let number = self.numbers.remove(&s)?;
                Ok(Removed::Removed { number })
            }
        }
    }

    // Sees to it that so many objects are there.
    fn extend(&mut self, count: usize) -> Result<(), Memory>
        requires { count ≤ 64 }
        ensures same { SameObjects self.old self.new }
        ensures count { OnOk result (count ≤ length self.new.objects) }
    {
        for _ in self.objects.len()..count {
            self.objects.push(Object::new(self.alloc))?;
        }
        Ok(())
    }

    // Writes bytes to an object that is there.
    fn write_object(&mut self, b: usize, off: u32, bytes: &[u8]) -> Result<(), Memory>
        requires object { b < length self.old.objects }
        requires within { off + length bytes.now ≤ OBJECT_SIZE }
        ensures ok { OnOk result (WritesObject b off bytes.now self.old self.new) }
        ensures err { OnErr result (SameObjects self.old self.new) }
    {
        let seq = self.numbers.last();
        self.objects[b].write(self.alloc, &seq, off, bytes)
    }

    /// Writes bytes to an object, from `off` on, under the last number that was drawn. They end within
    /// the object. After `Memory` the store is as before: it stands for the same lists of steps.
    pub fn write(&mut self, b: u32, off: u32, bytes: &[u8]) -> Result<(), Memory>
        requires object { b < OBJECT_COUNT }
        requires within { off + length bytes.now ≤ OBJECT_SIZE }
        ensures ok { OnOk result (Follows (wrote b off bytes.now) self.old self.new) }
        ensures err { OnErr result (Keeps self.old self.new) }
    {
        let index = b as usize;
        self.extend(index + 1)?;
        self.write_object(index, off, bytes)
    }

    /// Gives up each clone in whose span no standing snapshot lies, and answers how many. It takes no
    /// memory.
    pub fn trim(&mut self) -> u32
        ensures follows { Follows trimmed self.old self.new }
        ensures count { (h : List Step) → StandsFor h self.old → result ≡ given_up OBJECT_COUNT h }
        ensures serving { EachServes self.new }
    {
        self.trim_objects()
    }

    // Trims each object, and answers how many clones they dropped.
    fn trim_objects(&mut self) -> u32
        ensures trimmed { TrimsObjects self.old self.new }
        ensures count { result ≡ dropped_below self.old.numbers self.old.objects OBJECT_COUNT }
    {
        let mut count = 0u32;
        for index in 0..self.objects.len() {
            count += self.objects[index].trim(&self.numbers);
        }
        count
    }

    /// How many clones of the object are kept. It takes no memory.
    pub fn clones(&self, b: u32) -> u32
        requires { b < OBJECT_COUNT }
        ensures { (h : List Step) → StandsFor h self.now → result ≡ length (kept b h) }
    {
        self.count(b as usize)
    }

    // How many clones it holds of an object.
    fn count(&self, b: usize) -> u32
        ensures { result ≡ length (object_at self.now.objects b).clones }
    {
        match self.objects.get(b) {
            Some(object) => object.clones(),
            None => 0,
        }
    }

    // Fills `out` with the bytes that it holds of an object in a state, from `off` on.
    fn read_object(&self, b: usize, at: &At, off: u32, out: &mut [u8])
        ensures { EachIndex out.new (λ k. slice_index out.new k ≡ byte_in (image_at at.now (object_at self.now.objects b)) (off + k)) }
    {
        match self.objects.get(b) {
            Some(object) => object.read(at, off, out),
            None => out.fill(0),
        }
    }

    /// Fills `out`, which ends within the object, with the object's bytes from `off` on: at present, or
    /// as they were at a snapshot that stands. It takes no memory.
    pub fn read(&self, b: u32, at: At, off: u32, out: &mut [u8]) -> TrimRead
        requires object { b < OBJECT_COUNT }
        requires within { off + length out.old ≤ OBJECT_SIZE }
        ensures { Reads self.now b at off result out.old out.new }
    {
        match self.status(&at) {
            SnapStatus::NoSnap => TrimRead::NoSnap,
            SnapStatus::Gone => TrimRead::Gone,
            SnapStatus::Standing => {
                self.read_object(b as usize, &at, off, out);
                TrimRead::Read
            }
        }
    }

    // The present state stands.
    fn status(&self, at: &At) -> SnapStatus
        ensures { result ≡ status_of self.now.numbers at.now }
    {
        match at {
            At::Head => SnapStatus::Standing,
            At::Snap(snap) => self.numbers.status(snap.get()),
        }
    }
}
