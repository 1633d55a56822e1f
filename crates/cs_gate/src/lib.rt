//! A gate that up to 64 passes go through without a lock, and that one keeper shuts, drains and
//! reopens. Nobody is inside while the keeper is drained.
//!
//! The gate is one word of 64 bits: bit 63 is set while it is closed, bits 32 to 62 are its
//! generation, and bits 0 to 31 count the passes that are inside or turning back. Each step is one
//! atomic operation on this word:
//!
//! | step | who takes it | the word | then |
//! |---|---|---|---|
//! | enter | a pass that is out | 1 is added | inside, where the word was open, else turning |
//! | turn back | a pass that is turning | 1 is subtracted | out |
//! | leave | a pass that is inside | 1 is subtracted | out |
//! | shut | an open keeper | bit 63 is set | shut |
//! | probe | a shut or drained keeper | it is read | drained, where the count was 0, else as before |
//! | reopen | a drained keeper | the generations' difference and bit 63 are added, wrapping | open |
//!
//! While the gate is made, passes are split off the keeper's seat. The table that holds the word
//! allows these steps and no others, and keeps the rule between any two of them
//! (`specs/Gate.antt`): so each contract here says what one step read, and the laws say what holds
//! whatever the others do.
//!
//! No call but `Gate::make` takes memory, and none waits. Nothing is claimed of progress, as that a
//! gate ever drains, nor of a gate one of whose passes was dropped while inside.
#![tactic(auto)]

mod gate;
mod keeper;
mod laws;
mod memory;
mod moves;
mod pass;
mod views;

pub use gate::Gate;
pub use keeper::{Keeper, Probe};
pub use laws::{
    each_step_keeps_the_rule, handles_may_cross_threads, nobody_is_inside_when_drained,
    the_rule_always_holds, who_is_inside_holds_the_generation,
};
pub use memory::Memory;
pub use pass::{Entered, Pass};
pub use views::KeeperState;
