//! The costs of instructions, counted no further than a number of 64 bits goes.

ghost use Rattle.std.specs.Prelude.{◌≡◌, ◌≤◌, ◌-◌, ◌+◌};
ghost use Rattle.tp_flow.specs.Edges.{jump_target};
ghost use Rattle.tp_accept.specs.Bound.{whole_at, left_of, behind, begun_at, whole_of, cost_of};
ghost use Rattle.tp_accept.specs.Capped.{cap, capped, counted, table, AreCapped};

use tp_decode::{Instr, Listing, Placed};
use tp_image::{Image, LoopRow};

/// The most that can be executed from an address on, in instruction bytes; `u64::MAX` where that is more.
#[derive(Clone, Copy, Debug, PartialEq, Eq)]
pub struct Counted {
    /// To the end of the innermost loop around it, or of the run.
    pub left: u64,
    /// The same, where a loop that begins there makes all its turns before what lies behind it.
    pub whole: u64,
}

impl Counted {
    /// The count of an address before it was looked at.
    pub(crate) const NOTHING: Counted = Counted { left: 0, whole: 0 };
}

/// Where a jump by an operand goes.
fn jump_target(next: usize, operand: i32) -> Option<usize>
    ensures { result ≡ jump_target next operand }
{
    next.checked_add_signed(operand as isize)
}

/// The cost of an address, a loop that begins there with all its turns.
pub(crate) fn whole_at(costs: &[Counted], to: Option<usize>) -> u64
    requires { AreCapped costs.now }
    ensures value { result ≡ whole_at (table costs.now) to }
    ensures most { result ≤ cap }
{
    match to.and_then(|to| costs.get(to)) {
        None => 0,
        Some(cost) => cost.whole,
    }
}

/// The cost of an instruction of n bytes, before the next one, to the end of the innermost loop.
fn left_of(costs: &[Counted], n: u64, next: usize, instr: Instr) -> u64
    requires { AreCapped costs.now }
    ensures { result ≡ capped (left_of (table costs.now) n next instr) }
{
    let following = match instr {
        Instr::Stopp | Instr::Lend => 0,
        Instr::Jump(operand) => whole_at(costs, jump_target(next, operand)),
        Instr::Cj(operand) => {
            let on = whole_at(costs, Some(next));
            let taken = whole_at(costs, jump_target(next, operand));
            on.max(taken)
        }
        _ => whole_at(costs, Some(next)),
    };
    n.saturating_add(following)
}

/// The address behind the instruction at an address.
fn behind(listing: &Listing, at: usize) -> usize
    ensures { result ≡ behind listing.now at }
{
    listing.next(at).unwrap_or(at)
}

/// The loop that begins at an address.
fn begun_at(rows: &[LoopRow], at: usize) -> Option<LoopRow>
    ensures { result ≡ begun_at rows.now at }
{
    rows.iter().copied().find(|row| row.head as usize == at)
}

/// The cost of an address where a loop may begin, all its turns and what lies behind it.
fn whole_of(listing: &Listing, costs: &[Counted], left: u64, row: Option<LoopRow>) -> u64
    requires capped { AreCapped costs.now }
    requires left { left ≤ cap }
    ensures { result ≡ capped (whole_of listing.now (table costs.now) left row) }
{
    match row {
        None => left,
        Some(row) => {
            let later = whole_at(costs, Some(behind(listing, row.lend as usize)));
            u64::from(row.count)
                .saturating_mul(left)
                .saturating_add(later)
        }
    }
}

/// The cost of an instruction from the costs behind it.
#[tactic(auto, using(crate::proofs::CappedCosts::counted_parts))]
pub(crate) fn cost_of(
    image: &Image,
    listing: &Listing,
    costs: &[Counted],
    placed: Placed,
) -> Counted
    requires capped { AreCapped costs.now }
    requires order { placed.at ≤ placed.next }
    ensures { result ≡ counted
        (cost_of image.now.loops listing.now (table costs.now) placed.at (placed.next - placed.at) placed.instr) }
{
    let Placed { at, instr, next } = placed;
    let left = left_of(costs, (next - at) as u64, next, instr);
    let whole = whole_of(listing, costs, left, begun_at(&image.loops, at));
    Counted { left, whole }
}
