//! What the keeper and the passes of a gate know. No value of a `View` is made.
use std::collections::LinkedList;

/// What a pass is. It is turning between the two steps of an `enter` that found the gate closed.
pub enum PassState {
    Out,
    Turning,
    /// Inside this generation.
    Inside(u32),
}

/// What a keeper is, each with the generation, which is below 2^31.
#[derive(Clone, Copy, Debug, PartialEq, Eq)]
pub enum KeeperState {
    /// Passes may come in.
    Open(u32),
    /// No pass comes in, and some may still be inside.
    Shut(u32),
    /// No pass comes in, and none is inside.
    Drained(u32),
}

/// What a seat at the word of a gate is.
pub enum Role {
    Pass(PassState),
    Keeper(KeeperState),
    /// A pass that was joined to another seat.
    Spent,
}

/// What a seat knows.
pub struct View {
    pub role: Role,
    /// The words that its own enter and probe steps found, in order.
    pub reads: LinkedList<u64>,
    /// How many passes may still be split off it.
    pub spare: u64,
}

/// For what a gate is made.
#[derive(Clone, Copy, Debug, PartialEq, Eq)]
pub struct Plan {
    /// The number of passes, at most 64.
    pub passes: u32,
    /// The first generation, below 2^31.
    pub generation: u32,
}

impl KeeperState {
    ghost use Rattle.std.specs.Prelude.{◌≡◌};
    ghost use Rattle.cs_gate.specs.Gate.{keeper_generation};

    /// The generation in which the gate is open, or was open last.
    pub fn generation(self) -> u32
        ensures { result ≡ keeper_generation self }
    {
        match self {
            KeeperState::Open(generation)
            | KeeperState::Shut(generation)
            | KeeperState::Drained(generation) => generation,
        }
    }
}
