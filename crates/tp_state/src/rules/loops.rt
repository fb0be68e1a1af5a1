//! Places to deschedule, and loops.

ghost use Rattle.std.specs.Prelude.{◌≡◌, ◌+◌, ◌<◌, pos, ◌-ℤ◌, ◌≤◌, length, slice_get, IfSome, IsSome};
ghost use Rattle.std.specs.Ordering.{int_eq};
ghost use Rattle.tp_decode.specs.declared.instr.Instr.TheVariants.{Jump, Lend};
ghost use Rattle.tp_image.specs.Image.{ImageValue};
ghost use Rattle.tp_flow.specs.declared.edge.Edge.{Edge};
ghost use Rattle.tp_flow.specs.NestRanges.{ranges};
ghost use Rattle.tp_state.specs.Answer.{answered};
ghost use Rattle.tp_state.specs.Kinds.{is_exactly};
ghost use Rattle.tp_state.specs.Conditions.{KeepsPlace, IsPlaced, HasGoodLoops};
ghost use Rattle.tp_state.specs.Rules.{rule, row_ended_at, with_block, FollowsEachRule};
ghost use Rattle.tp_state.specs.After.{is_known, entering, entered_at};

use crate::cell::Cell;
use crate::fault::StateCode;
use crate::kind::Kind;
use crate::state::State;
use tp_decode::Instr;
use tp_flow::{Edge, Nest};
use tp_image::{Image, LoopRow};

/// The row of a number, with its block in the workspace.
fn row_of(image: &Image, number: usize) -> Option<LoopRow>
    requires { HasGoodLoops image.now }
    ensures value { result ≡ slice_get image.now.loops number }
    ensures block { IfSome result (λ row. row.control + 1 < image.now.workspace) }
    ensures small { IsSome result → number < 256 }
{
    image.loops.get(number).copied()
}

/// The loop whose lend is at an address.
#[tactic(auto, unfolding(crate::specs::Rules::row_ended_at))]
fn row_ended_at(image: &Image, nest: &Nest, at: usize) -> Option<LoopRow>
    requires good { HasGoodLoops image.now }
    requires nest { nest.now ≡ ranges image.now.loops }
    ensures value { result ≡ row_ended_at image.now at }
    ensures block { IfSome result (λ row. row.control + 1 < image.now.workspace) }
{
    let number = nest.lend_row(at)?;
    row_of(image, number)
}

/// Whether a number is the distance back from an address to a head.
fn leads_back(n: i32, next: usize, head: u32) -> bool
    ensures { result ≡ int_eq n (pos next -ℤ pos head) }
{
    let end = i64::from(n) + i64::from(head);
    0 <= end && end as usize == next
}

/// Whether a register has that distance.
fn is_distance(kind: Kind, next: usize, head: u32) -> bool
    ensures { result ≡ is_exactly (pos next -ℤ pos head) kind }
{
    match kind {
        Kind::Int(low, high) => leads_back(low, next, head) && leads_back(high, next, head),
        _ => false,
    }
}

/// The number of the loop that an edge of an instruction enters.
pub(crate) fn entered_at(
    nest: &Nest,
    at: usize,
    next: usize,
    instr: Instr,
    edge: Edge,
) -> Option<usize>
    ensures { (image : ImageValue) → nest.now ≡ ranges image.loops → result ≡ entered_at image at next instr edge }
{
    // Most codes have no loops, and then no edge has to be followed.
    match nest.range(0) {
        None => None,
        Some(_) => nest.entered(at, nest.target(at, next, instr, edge)?),
    }
}

/// Whether it is known that a word has this value.
fn is_known(n: i64, cell: Cell) -> bool
    ensures { result ≡ is_known n cell }
{
    match cell {
        Cell::Known(m) => i64::from(m) == n,
        _ => false,
    }
}

impl State {
    #[tactic(auto, unfolding(crate::specs::Rules::rule))]
    pub(super) fn jump(&mut self, n: i32) -> Result<(), StateCode>
        requires roomy { 5 ≤ self.old.wptr }
        requires inside { self.old.wptr ≤ length self.old.cells }
        ensures value { FollowsEachRule (Jump n) result self.old self.new }
        ensures kept { KeepsPlace self.old self.new }
    {
        self.deschedule()
    }

    /// Both words of a loop's block.
    fn set_block(&mut self, row: LoopRow, index: Cell, count: Cell)
        requires { row.control + 1 < length self.old.cells }
        ensures value { self.new ≡ with_block row index count self.old }
        ensures kept { KeepsPlace self.old self.new }
    {
        self.cells.set(row.control as usize, index);
        self.cells.set(row.control as usize + 1, count);
    }

    #[tactic(auto, unfolding(crate::specs::Rules::rule))]
    pub(super) fn lend(
        &mut self,
        image: &Image,
        nest: &Nest,
        at: usize,
        next: usize,
        edge: Edge,
    ) -> Result<(), StateCode>
        requires placed { IsPlaced image.now self.old }
        requires good { HasGoodLoops image.now }
        requires nest { nest.now ≡ ranges image.now.loops }
        ensures value { answered result self.new ≡ rule image.now at next Lend edge self.old }
        ensures kept { KeepsPlace self.old self.new }
    {
        self.a.known()?;
        self.b.known()?;
        self.a.number()?;
        self.b.pointer()?;
        let row = row_ended_at(image, nest, at).ok_or(StateCode::S5)?;
        if !(self.b.points_at(row.control) && is_distance(self.a, next, row.head)) {
            return Err(StateCode::S5);
        }
        self.deschedule()?;
        if edge == Edge::Out {
            self.set_block(row, Cell::Undef, Cell::Undef);
        }
        Ok(())
    }

    /// Enters a loop, if there is one to enter.
    #[tactic(auto, unfolding(crate::specs::After::entering))]
    pub(crate) fn enter(&mut self, image: &Image, entered: Option<usize>) -> Result<(), StateCode>
        requires placed { IsPlaced image.now self.old }
        requires good { HasGoodLoops image.now }
        ensures value { answered result self.new ≡ entering image.now.loops entered self.old }
        ensures kept { KeepsPlace self.old self.new }
    {
        let Some(number) = entered else {
            return Ok(());
        };
        let row = row_of(image, number).ok_or(StateCode::S5)?;
        let block = row.control as usize;
        let starts = is_known(i64::from(row.start), self.cells.get(block));
        if !(starts && is_known(i64::from(row.count), self.cells.get(block + 1))) {
            return Err(StateCode::S5);
        }
        self.set_block(row, Cell::Index(number as u8), Cell::Count(number as u8));
        Ok(())
    }
}
