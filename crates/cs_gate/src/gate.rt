//! A gate: the word that its keeper and its passes share.
ghost use Rattle.std.specs.Prelude.{◌≡◌};

use crate::keeper::Keeper;
use crate::memory::Memory;
use crate::moves::{Gating, first_word};
use crate::pass::Pass;
use crate::views::{Plan, View};
use atomic_table::Table;
use std::alloc::Global;
use std::sync::Arc;

/// A gate. Its keeper and its passes share it, and it lasts as long as any of these.
#[derive(Drop)]
pub struct Gate {
    pub(crate) word: Table<(), View, Plan, Gating, Global>,
    ghost one_word: { word.shared.table_id.words ≡ 1 },
}

impl Gate {
    ghost use Rattle.std.specs.Prelude.{◌≡◌, ◌≤◌, ◌<◌, ◌^◌, IfOk};
    ghost use Rattle.cs_gate.specs.Handles.{IsNewGate};

    /// Makes a gate that is closed and drained in this generation, with its keeper and so many
    /// passes, all out. There are at most 64 passes, and the generation is below 2^31. No other call of
    /// a keeper or a pass takes memory.
    pub fn make(alloc: Global, passes: u32, generation: u32) -> Result<(Keeper, Vec<Pass>), Memory>
        requires few { passes ≤ 64 }
        requires range { generation < 2 ^ 31 }
        ensures { IfOk result (λ made. IsNewGate passes generation made.0 made.1.items) }
    {
        let plan = Plan { passes, generation };
        let first = first_word(&plan);
        let (word, mut seat) = Table::of_words(alloc, &[first], &plan)?;
        let gate = Arc::new(alloc, Gate { word })?;
        let mut all = Vec::with_capacity(alloc, passes as usize)?;
        for _ in 0..passes {
            let pass = Pass::split_off(&gate, &mut seat)?;
            all.push(pass)?;
        }
        Ok((Keeper::drained(gate, seat, generation), all))
    }
}
