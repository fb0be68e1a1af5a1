//! The loop nest.

ghost use Rattle.std.specs.Prelude.{◌≡◌, ◌≤◌, length, slice_get, IsTrue};
ghost use Rattle.tp_image.specs.Limits.{most_loops};
ghost use Rattle.tp_flow.specs.NestRanges.{ranges, number_ended_at, head_of};
ghost use Rattle.tp_flow.specs.LoopsAround.{is_around, entered_by, rows_around};
ghost use Rattle.tp_flow.specs.Edges.{target};
ghost use Rattle.tp_flow.specs.Stretches.{IsStretch};

use crate::edge::{Edge, has_edge, jump_operand, jump_target};
use crate::limits::MAX_LOOPS;
use crate::range::LoopRange;
use arrayvec::ArrayVec;
use std::marker::Model;
use tp_decode::Instr;
use tp_image::LoopRow;

/// The loops of a code: a contract sees their ranges, in the order of the loop rows.
#[derive(Debug, Drop)]
pub struct Nest {
    loops: ArrayVec<LoopRange, MAX_LOOPS>,
}

/// Addresses in a row that lie in the same loops.
#[derive(Clone, Copy)]
pub(crate) struct Stretch {
    pub(crate) first: usize,
    pub(crate) last: usize,
}

impl Stretch {
    /// Whether two addresses, of which the first is not above the second, lie in it.
    pub(crate) fn has_both(self, at: usize, to: usize) -> bool
        ensures { IsTrue result → (self.first ≤ at) × (at ≤ to) × (to ≤ self.last) }
    {
        self.first <= at && at <= to && to <= self.last
    }
}

impl Model for Nest {
    ghost use Rattle.std.specs.Prelude.{List};
    ghost use Rattle.tp_flow.specs.declared.range.LoopRange.{LoopRange};

    ghost Value = { List LoopRange };

    ghost view = { λ nest. nest.loops.items };
}

impl Nest {
    /// The ranges of loop rows.
    pub(crate) fn of(rows: &[LoopRow]) -> Nest
        requires { length rows.now ≤ most_loops }
        ensures { result ≡ ranges rows.now }
    {
        let mut loops = ArrayVec::new();
        for row in rows {
            loops.push(LoopRange::of(row));
        }
        Nest { loops }
    }

    /// The ranges, in the order of the rows.
    pub(crate) fn loops(&self) -> &[LoopRange]
        ensures value { result.now ≡ self.now }
        ensures few { length result.now ≤ most_loops }
    {
        self.loops.as_slice()
    }

    /// Where an edge goes from an instruction at an address, with the next one
    /// behind it; all are byte addresses. None where the instruction has no such edge, or where its
    /// target is no address: a Taken edge to below 0, a Back edge of a lend that no row names.
    pub fn target(&self, at: usize, next: usize, instr: Instr, edge: Edge) -> Option<usize>
        ensures { result ≡ target self.now at next instr edge }
    {
        if !has_edge(instr, edge) {
            return None;
        }
        match edge {
            Edge::Next | Edge::Out => Some(next),
            Edge::Taken => jump_target(next, jump_operand(instr)?),
            Edge::Back => self.head_of(self.lend_row(at)?),
        }
    }

    /// The loop of a row, which is counted from 0.
    pub fn range(&self, row: usize) -> Option<LoopRange>
        ensures { result ≡ slice_get self.now row }
    {
        self.loops().get(row).copied()
    }

    /// Whether an address lies in the loop of a row, which is counted from 0; false where there is no
    /// such row.
    pub fn contains(&self, row: usize, at: usize) -> bool
        ensures { result ≡ is_around self.now at row }
    {
        match self.loops().get(row) {
            Some(range) => range.contains(at),
            None => false,
        }
    }

    /// Where the loop of a row begins, which is counted from 0; None where there is no such row.
    fn head_of(&self, row: usize) -> Option<usize>
        ensures { result ≡ head_of self.now row }
    {
        self.loops().get(row).map(|range| range.head)
    }

    /// The number of the row whose lend is at an address.
    pub fn lend_row(&self, at: usize) -> Option<usize>
        ensures { result ≡ number_ended_at self.now at }
    {
        self.loops().iter().position(|range| range.lend == at)
    }

    /// The number of the row whose loop begins at the address `to` and does not contain the address `at`: the loop that
    /// an edge between them enters.
    pub fn entered(&self, at: usize, to: usize) -> Option<usize>
        ensures { result ≡ entered_by self.now at to }
    {
        self.loops()
            .iter()
            .position(|range| range.head == to && !range.contains(at))
    }

    /// The numbers of the rows whose loops contain an address, rising: in a nest that passed, at most four.
    pub fn around(&self, at: usize) -> ArrayVec<usize, MAX_LOOPS>
        ensures { result.items ≡ rows_around self.now at }
    {
        let mut rows = ArrayVec::new();
        for row in 0..self.loops().len() {
            if self.contains(row, at) {
                rows.push(row);
            }
        }
        rows
    }

    /// The addresses in a row from this one on that lie in the same loops as it does.
    pub(crate) fn stretch(&self, first: usize) -> Stretch
        ensures { IsStretch self.now result.first result.last }
    {
        let mut last = usize::MAX;
        for range in self.loops() {
            last = last.min(range.alike_up_to(first));
        }
        Stretch { first, last }
    }
}
