//! The word of a gate, its rule, and what each step on it tells.
ghost use Rattle.std.specs.Prelude.{◌≡◌, ◌<◌, ◌^◌};
ghost use Rattle.cs_gate.specs.Gate as gate;

use crate::views::{Plan, View};
use atomic_table::{Play, Split, TableRule};

pub(crate) const CLOSED: u64 = 1 << 63;

/// One generation in the word.
const GENERATION: u64 = 1 << 32;

/// The rule of a gate's word.
pub(crate) struct Gating;

impl TableRule<(), View, Plan> for Gating {
    ghost use Rattle.cs_gate.specs.Gate.{first_view};
    ghost use Rattle.cs_gate.specs.Moves.{IsGate};

    ghost holds = { IsGate };

    ghost first = { first_view };
}

pub(crate) struct Enter;

impl Play<(), View> for Enter {
    ghost use Rattle.cs_gate.specs.Gate.{enter};
    ghost use Rattle.cs_gate.specs.Moves.{Tells};

    ghost then = { Tells enter };
}

pub(crate) struct TurnBack;

impl Play<(), View> for TurnBack {
    ghost use Rattle.cs_gate.specs.Gate.{turn_back};
    ghost use Rattle.cs_gate.specs.Moves.{Tells};

    ghost then = { Tells turn_back };
}

pub(crate) struct Leave;

impl Play<(), View> for Leave {
    ghost use Rattle.cs_gate.specs.Gate.{leave};
    ghost use Rattle.cs_gate.specs.Moves.{Tells};

    ghost then = { Tells leave };
}

pub(crate) struct Shut;

impl Play<(), View> for Shut {
    ghost use Rattle.cs_gate.specs.Gate.{shut};
    ghost use Rattle.cs_gate.specs.Moves.{Tells};

    ghost then = { Tells shut };
}

pub(crate) struct Probe;

impl Play<(), View> for Probe {
    ghost use Rattle.cs_gate.specs.Moves.{ProbeTells};

    ghost then = { ProbeTells };
}

pub(crate) struct Reopen;

impl Play<(), View> for Reopen {
    ghost use Rattle.cs_gate.specs.Moves.{ReopenTells};

    ghost then = { ReopenTells };
}

pub(crate) struct NewPass;

impl Split<View> for NewPass {
    ghost use Rattle.cs_gate.specs.Gate.{view_after_split, new_pass};

    ghost left = { view_after_split };

    ghost right = { λ _. new_pass };
}

/// Bit 63 of a word.
pub(crate) fn is_closed(word: u64) -> bool
    ensures { result ≡ gate.is_closed word }
{
    word >= CLOSED
}

/// Bits 32 to 62 of a word.
pub(crate) fn generation_of(word: u64) -> u32
    ensures { result ≡ gate.generation_of word }
{
    (word / GENERATION % (1 << 31)) as u32
}

/// Bits 0 to 31 of a word.
pub(crate) fn count_of(word: u64) -> u32
    ensures { result ≡ gate.count_of word }
{
    (word % GENERATION) as u32
}

/// The word of a new gate, which is closed.
pub(crate) fn first_word(plan: &Plan) -> u64
    requires { gate.IsPlan plan.now }
    ensures { result ≡ gate.first_word plan.now }
{
    CLOSED + u64::from(plan.generation) * GENERATION
}

/// What a reopening adds to the word, wrapping.
pub(crate) fn reopening(old: u32, new: u32) -> u64
    requires later { old < new }
    requires range { new < 2 ^ 31 }
    ensures { result ≡ gate.reopening old new }
{
    CLOSED + u64::from(new - old) * GENERATION
}
