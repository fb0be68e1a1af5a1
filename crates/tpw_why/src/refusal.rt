//! A refusal of the passes.

use tp_decode::Placed;
use tp_flow::Edge;
use tp_state::{State, StateCode};

/// A refusal: the edge on which it comes, and what is refused.
#[derive(Clone, Copy, Debug, PartialEq, Eq)]
pub struct EdgeRefusal {
    /// The instruction.
    pub instruction: Placed,
    /// The edge on which its rule was asked.
    pub edge: Edge,
    /// The code of the refusal.
    pub code: StateCode,
    /// Where: the instruction's address in the code, in bytes; or where two edges may not meet, the address of their
    /// target.
    pub place: usize,
}

/// The first refusal of the passes, with what is known at that moment.
#[derive(Drop)]
pub struct FirstRefusal {
    /// How many passes have refused nothing before.
    pub passes: u128,
    /// The edge that is refused in the next one.
    pub refusal: EdgeRefusal,
    /// The abstract states before the instructions when that edge is taken: by address, in code bytes.
    pub table: Vec<Option<State>>,
}
