//! Abstract values of workspace words.

ghost use Rattle.std.specs.Prelude.{◌≡◌, ◌≤◌, ◌≤ℤ◌, ◌^◌, ◌-◌, pos};
ghost use Rattle.tp_flow.specs.RowRules.{last_index};
ghost use Rattle.tp_state.specs.Conditions.{HasGoodLoops};
ghost use Rattle.tp_state.specs.Order.{cell_below, join_cells};
ghost use Rattle.tp_state.specs.CellRules.{is_free, read, copied};

use crate::fault::StateCode;
use crate::kind::Kind;
use crate::ranges::FULL;
use tp_image::{Image, LoopRow};

/// The abstract value of a workspace word.
#[derive(Clone, Copy, Debug, PartialEq, Eq)]
pub enum Cell {
    /// Nothing: a byte of it may be undefined.
    Undef,
    /// Its bytes are defined.
    Any,
    /// It has this value, read signed.
    Known(i32),
    /// It is the index of the live loop of this row.
    Index(u8),
    /// It is the count of the live loop of this row.
    Count(u8),
}

impl Cell {
    /// Whether it is no live control word.
    pub(crate) fn is_free(self) -> bool
        ensures { result ≡ is_free self }
    {
        !matches!(self, Cell::Index(_) | Cell::Count(_))
    }

    /// The abstract value of a copy of the word.
    pub(crate) fn copied(self) -> Cell
        ensures { result ≡ copied self }
    {
        match self {
            Cell::Index(_) | Cell::Count(_) => Cell::Any,
            cell => cell,
        }
    }

    /// The join.
    pub fn join(self, other: Cell) -> Cell
        ensures { result ≡ join_cells self other }
    {
        match (self, other) {
            (cell, other) if cell == other => cell,
            (Cell::Known(_) | Cell::Any, Cell::Known(_) | Cell::Any) => Cell::Any,
            _ => Cell::Undef,
        }
    }

    /// Whether it is below the other.
    pub fn is_below(self, other: Cell) -> bool
        ensures { result ≡ cell_below self other }
    {
        match (self, other) {
            (cell, Cell::Undef) => cell.is_free(),
            (Cell::Known(_), Cell::Any) => true,
            (cell, other) => cell == other,
        }
    }

    /// The abstract value of a register that is loaded with the word.
    #[tactic(auto, unfolding(crate::specs::CellRules::read))]
    pub(crate) fn read(self, image: &Image) -> Result<Kind, StateCode>
        requires { HasGoodLoops image.now }
        ensures { result ≡ read image.now.loops self }
    {
        match self {
            Cell::Undef => Err(StateCode::S4),
            Cell::Any => Ok(FULL),
            Cell::Known(n) => Ok(Kind::Int(n, n)),
            Cell::Index(l) => match image.loops.get(usize::from(l)) {
                Some(row) => Ok(Kind::Int(row.start, last_index(row))),
                None => Err(StateCode::S4),
            },
            Cell::Count(l) => match image.loops.get(usize::from(l)) {
                Some(row) => Ok(Kind::Int(1, row.count as i32)),
                None => Err(StateCode::S4),
            },
        }
    }
}

/// The index of a loop's last turn.
fn last_index(row: &LoopRow) -> i32
    requires some { 1 ≤ row.now.count }
    requires ends { last_index row.now ≤ℤ pos (2 ^ 31 - 1) }
    ensures { result ≡ last_index row.now }
{
    (i64::from(row.start) + i64::from(row.count) - 1) as i32
}
