//! The keeper of a gate, which shuts, drains and reopens it.
use crate::gate::Gate;
use crate::moves;
use crate::moves::{CLOSED, count_of, reopening};
use crate::views::{KeeperState, View};
use atomic_table::Seat;
use std::alloc::Global;
use std::marker::Model;
use std::sync::Arc;

/// What a probe found.
#[derive(Clone, Copy, Debug, PartialEq, Eq)]
pub enum Probe {
    /// No pass was inside or turning back.
    Drained,
    /// So many passes, at least 1, were inside or turning back.
    Occupied { count: u32 },
}

/// The keeper of a gate. There is one for each gate.
#[derive(Drop)]
pub struct Keeper {
    gate: Arc<Gate, Global>,
    seat: Seat<(), View>,
    state: KeeperState,
}

impl Model for Keeper {
    ghost use Rattle.std.specs.Prelude.{◌≡◌};
    ghost use Rattle.std.specs.Arc.{arc_value};
    ghost use Rattle.cs_gate.specs.Handles.{KeeperHandle, gate_id, keeper_view};

    ghost Value = { KeeperHandle };

    ghost view = { λ k. record { gate = gate_id (arc_value k.gate); seat = k.seat.id; state = k.state; reads = k.seat.me.0.reads } };

    ghost invariant = { λ k. (k.seat.table_id ≡ (arc_value k.gate).word.shared.table_id) × (k.seat.me.0 ≡ keeper_view k.state k.seat.me.0.reads) };
}

impl Keeper {
    ghost use Rattle.std.specs.Prelude.{◌≡◌, ℕ, ◌^◌, ◌<◌, List, [], IsTrue, IsFalse};
    ghost use Rattle.std.specs.Arc.{arc_value};
    ghost use Rattle.cs_gate.specs.declared.views.View.{View};
    ghost use Rattle.cs_gate.specs.Gate.{NobodyIsInside, is_open, is_drained, keeper_generation};
    ghost use Rattle.cs_gate.specs.Handles.{KeeperFinds, IsProbe, IsNewKeeper, gate_id, keeper_view};

    // The keeper of a new gate, which has this seat.
    pub(crate) fn drained(gate: Arc<Gate, Global>, seat: Seat<(), View>, generation: u32) -> Keeper
        requires seat { seat.table_id ≡ (arc_value gate).word.shared.table_id }
        requires view { seat.me.0 ≡ keeper_view (KeeperState.Drained generation) [] }
        ensures { IsNewKeeper (gate_id (arc_value gate)) generation result }
    {
        Keeper {
            gate,
            seat,
            state: KeeperState::Drained(generation),
        }
    }

    /// What the keeper is.
    pub fn state(&self) -> KeeperState
        ensures state { result ≡ self.now.state }
        ensures nobody_inside { IsTrue (is_drained result) → (word : ℕ) (views : List View)
            → KeeperFinds self.now word views → NobodyIsInside views }
    {
        self.state
    }

    /// Shuts the gate, which must be open: from now on no pass comes in.
    pub fn shut(&mut self)
        requires { IsTrue (is_open self.old.state) }
        ensures { self.new ≡ record self.old { state = KeeperState.Shut (keeper_generation self.old.state) } }
    {
        let shared = &self.gate.word.shared;
        shared.fetch_or::<moves::Shut>(&mut self.seat, 0, CLOSED);
        self.state = KeeperState::Shut(self.state.generation());
    }

    /// Reads how many passes are inside or turning back; the gate must be closed. The keeper is drained
    /// from then on where the answer is `Drained`, and else it stays as it was.
    pub fn probe(&mut self) -> Probe
        requires { IsFalse (is_open self.old.state) }
        ensures step { IsProbe self.old self.new result }
        ensures nobody_inside { result ≡ Probe.Drained → (word : ℕ) (views : List View)
            → KeeperFinds self.new word views → NobodyIsInside views }
    {
        let shared = &self.gate.word.shared;
        let word = shared.load::<moves::Probe>(&mut self.seat, 0);
        let count = count_of(word);
        if count > 0 {
            return Probe::Occupied { count };
        }
        self.state = KeeperState::Drained(self.state.generation());
        Probe::Drained
    }

    /// Opens the gate again, which must be drained, in a later generation below 2^31.
    pub fn reopen(&mut self, generation: u32)
        requires drained { IsTrue (is_drained self.old.state) }
        requires later { keeper_generation self.old.state < generation }
        requires range { generation < 2 ^ 31 }
        ensures { self.new ≡ record self.old { state = KeeperState.Open generation } }
    {
        let added = reopening(self.state.generation(), generation);
        let shared = &self.gate.word.shared;
        shared.fetch_add::<moves::Reopen>(&mut self.seat, 0, added);
        self.state = KeeperState::Open(generation);
    }
}
