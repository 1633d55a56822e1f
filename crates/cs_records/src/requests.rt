// The requests, by number.
ghost use Rattle.std.specs.Prelude.{◌≡◌, ◌==◌, ◌<◌, ℕ, None, Some, if◌then◌else◌, OnOk};
ghost use Rattle.std.specs.Option.{option_map};
ghost use Rattle.indexmap.specs.IndexMap.{spare};
ghost use Rattle.cs_records.specs.Requests.{answered_in};

use cs_ids::{Memory, Tid};
use cs_laws::OpAnswer;
use indexmap::IndexMap;
use std::alloc::Global;

// A request that was answered.
#[derive(Clone, Copy)]
struct Answered {
    // The place of its record in the log.
    place: usize,
    answer: OpAnswer,
}

// The requests that were answered.
#[derive(Drop)]
pub struct Requests {
    // The number of the last one, or 0 where there is none.
    pub last: u64,
    answered: IndexMap<Tid, Answered>,
}

impl Requests {
    // No requests. It takes no memory.
    pub fn new(alloc: Global) -> Self
        ensures last { result.last ≡ 0 }
        ensures answered { (t : ℕ) → answered_in result t ≡ None }
    {
        Requests {
            last: 0,
            answered: IndexMap::new(alloc),
        }
    }

    // The place in the log of the record of a request.
    pub fn place(&self, tid: Tid) -> Option<usize>
        ensures { result ≡ option_map (λ a. a.place) (answered_in self.now tid) }
    {
        Some(self.answered.get(&tid)?.place)
    }

    // The answer to a request.
    pub fn answer(&self, tid: Tid) -> Option<OpAnswer>
        ensures { result ≡ option_map (λ a. a.answer) (answered_in self.now tid) }
    {
        Some(self.answered.get(&tid)?.answer)
    }

    // Makes room for one more request. All requests are as before.
    pub fn reserve(&mut self) -> Result<(), Memory>
        ensures last { self.new.last ≡ self.old.last }
        ensures answered { (t : ℕ) → answered_in self.new t ≡ answered_in self.old t }
        ensures room { OnOk result (0 < spare self.new.answered) }
    {
        Ok(self.answered.reserve(1)?)
    }

    // Takes one more request, for which there is room.
    pub fn enter(&mut self, tid: Tid, place: usize, answer: OpAnswer)
        requires { 0 < spare self.old.answered }
        ensures last { self.new.last ≡ tid }
        ensures answered { (t : ℕ) → answered_in self.new t ≡ (if tid == t then Some (record { place = place; answer = answer }) else answered_in self.old t) }
    {
        self.last = tid.get();
        match self.answered.insert(tid, Answered { place, answer }) {
            Ok(_) => {}
            Err(_) => unreachable!(),
        }
    }
}
