//! A pass of a gate, with which one thread goes in and out.
use crate::gate::Gate;
use crate::memory::Memory;
use crate::moves::{Enter, Leave, NewPass, TurnBack, generation_of, is_closed};
use crate::views::View;
use atomic_table::Seat;
use std::alloc::Global;
use std::marker::Model;
use std::sync::Arc;

/// What a call of `enter` came to.
#[derive(Clone, Copy, Debug, PartialEq, Eq)]
pub enum Entered {
    /// The pass is inside, in this generation.
    Inside { generation: u32 },
    /// The gate was closed, in this generation, and the pass is out.
    Shut { generation: u32 },
}

/// A pass of a gate.
#[derive(Drop)]
pub struct Pass {
    gate: Arc<Gate, Global>,
    seat: Seat<(), View>,
    inside: Option<u32>,
}

impl Model for Pass {
    ghost use Rattle.std.specs.Prelude.{◌≡◌};
    ghost use Rattle.std.specs.Arc.{arc_value};
    ghost use Rattle.cs_gate.specs.Handles.{PassHandle, gate_id, pass_view};

    ghost Value = { PassHandle };

    ghost view = { λ p. record { gate = gate_id (arc_value p.gate); seat = p.seat.id; inside = p.inside; reads = p.seat.me.0.reads } };

    ghost invariant = { λ p. (p.seat.table_id ≡ (arc_value p.gate).word.shared.table_id) × (p.seat.me.0 ≡ pass_view p.inside p.seat.me.0.reads) };
}

impl Pass {
    ghost use Rattle.std.specs.Prelude.{◌≡◌, ℕ, ◌<◌, List, IsSome, IsNone, IfSome, IfOk, OnOk, None};
    ghost use Rattle.std.specs.Arc.{arc_value};
    ghost use Rattle.cs_gate.specs.declared.views.View.{View};
    ghost use Rattle.cs_gate.specs.Gate.{HoldsGeneration, view_after_split};
    ghost use Rattle.cs_gate.specs.Handles.{PassFinds, IsEntry, IsNewPass, gate_id};

    // A new pass, which is out, split off a seat that has one to spare.
    pub(crate) fn split_off(
        gate: &Arc<Gate, Global>,
        seat: &mut Seat<(), View>,
    ) -> Result<Pass, Memory>
        requires seat { seat.old.table_id ≡ (arc_value gate.now).word.shared.table_id }
        requires spare { 0 < seat.old.me.0.spare }
        ensures seat { OnOk result ((seat.new.table_id ≡ seat.old.table_id)
            × (seat.new.me.0 ≡ view_after_split seat.old.me.0)) }
        ensures pass { IfOk result (IsNewPass (gate_id (arc_value gate.now))) }
    {
        let gate = Arc::try_clone(gate)?;
        let seat = gate.word.shared.split_seat::<NewPass>(seat);
        Ok(Pass {
            gate,
            seat,
            inside: None,
        })
    }

    /// The generation that the pass is inside of, and `None` where it is out.
    pub fn inside(&self) -> Option<u32>
        ensures inside { result ≡ self.now.inside }
        ensures held { IfSome result (λ g. (word : ℕ) (views : List View) → PassFinds self.now word views
            → HoldsGeneration views g) }
    {
        self.inside
    }

    /// Tries to go in; the pass must be out. Where it finds the gate closed, it turns back.
    pub fn enter(&mut self) -> Entered
        requires { IsNone self.old.inside }
        ensures { IsEntry self.old self.new result }
    {
        let shared = &self.gate.word.shared;
        let word = shared.fetch_add::<Enter>(&mut self.seat, 0, 1);
        let generation = generation_of(word);
        if is_closed(word) {
            shared.fetch_sub::<TurnBack>(&mut self.seat, 0, 1);
            return Entered::Shut { generation };
        }
        self.inside = Some(generation);
        Entered::Inside { generation }
    }

    /// Goes out; the pass must be inside.
    pub fn leave(&mut self)
        requires { IsSome self.old.inside }
        ensures { self.new ≡ record self.old { inside = None } }
    {
        let shared = &self.gate.word.shared;
        shared.fetch_sub::<Leave>(&mut self.seat, 0, 1);
        self.inside = None;
    }
}
