//! Tables.

ghost use Rattle.std.specs.Prelude.{◌≡◌, ◌≤◌, ◌^◌, length, IfOk};
ghost use Rattle.tp_check.specs.Tables.{table_of};
ghost use Rattle.tp_check.specs.Carried.{AreStatesOf};
ghost use Rattle.tp_check.specs.Joining.{is_kept_at};

use crate::predecessors::Predecessors;
use std::alloc::{AllocError, Global};
use tp_state::State;

/// States before some instructions of a code, from which the rest can be worked out.
#[derive(Drop)]
pub struct Table {
    /// The states, each with its address, by rising address: at the first address, at those that two edges reach, and
    /// at loops' heads, if a way leads there, and nowhere else.
    pub states: Vec<(u32, State)>,
}

impl Table {
    /// The table of the states that the passes have left.
    pub(crate) fn of(
        alloc: Global,
        mut states: Vec<Option<State>>,
        predecessors: &Predecessors,
    ) -> Result<Table, AllocError>
        requires few { length states.items ≤ 2 ^ 32 }
        ensures { IfOk result (λ table. AreStatesOf (is_kept_at predecessors.now) (table_of states.items)
            table.states.items) }
    {
        let mut kept = Vec::new(alloc);
        for at in 0..states.len() {
            if predecessors.is_kept(at) {
                if let Some(state) = states[at].take() {
                    kept.push((at as u32, state))?;
                }
            }
        }
        Ok(Table { states: kept })
    }

    /// How many states it keeps.
    pub fn kept(&self) -> usize
        ensures { result ≡ length self.now.states.items }
    {
        self.states.len()
    }
}
