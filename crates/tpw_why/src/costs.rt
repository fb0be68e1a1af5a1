//! Where the bytes of a run go: costs by address.

ghost use Rattle.std.specs.Prelude.{◌≡◌, length, map, IfOk};
ghost use Rattle.tp_decode.specs.Cutting.{IsCutting};
ghost use Rattle.tp_accept.specs.Acceptance.{IsAcceptable};
ghost use Rattle.tp_accept.specs.Capped.{counted_at, AreCounted};
ghost use Rattle.tpw_why.specs.ByAddress.{loop_cost, AreByAddress, AreCostsOf, BeginsWithBudget};

use std::alloc::{AllocError, Global};
use tp_accept::{Accepted, Counted, costs};
use tp_decode::{DecodeFault, Listing, decode};
use tp_image::{Image, LoopRow};

/// The most instruction bytes of a loop, once it is entered.
#[derive(Clone, Copy, Debug, PartialEq, Eq)]
pub struct LoopCost {
    /// The address of its first instruction.
    pub head: u32,
    /// The address of its `lend`.
    pub lend: u32,
    /// How many turns it makes.
    pub turns: u32,
    /// The bytes of a turn.
    pub turn: u64,
}

/// Where the bytes of an accepted image go.
#[derive(Drop)]
pub struct Costs {
    /// The most instruction bytes of a run, as the verifier has it.
    pub budget: u32,
    /// Of each loop, in the order of rows.
    pub loops: Vec<LoopCost>,
    /// By address: none where no instruction begins.
    pub by_address: Vec<Option<Counted>>,
}

/// The instructions of an accepted image.
pub(crate) fn listing_of(alloc: Global, accepted: &Accepted) -> Result<Listing, AllocError>
    ensures { IfOk result (IsCutting accepted.now.image.code) }
{
    match decode(alloc, accepted.code()) {
        Ok(listing) => Ok(listing),
        Err(DecodeFault::Memory) => Err(AllocError),
        Err(DecodeFault::Refused { .. }) => unreachable!(),
    }
}

/// Of what was counted for each byte, the costs where an instruction begins.
fn by_address(
    alloc: Global,
    image: &Image,
    listing: &Listing,
    counted: &[Counted],
) -> Result<Vec<Option<Counted>>, AllocError>
    requires { AreCounted image.now.loops listing.now counted.now }
    ensures { IfOk result (λ all. AreByAddress image.now.loops listing.now (length counted.now) all.items) }
{
    let mut all = Vec::with_capacity(alloc, counted.len())?;
    for (at, cost) in counted.iter().enumerate() {
        all.push(listing.at(at).map(|_| *cost))?;
    }
    Ok(all)
}

/// The cost of a loop.
fn of_loop(row: LoopRow, counted: &[Counted]) -> LoopCost
    ensures { result ≡
        record { head = row.head; lend = row.lend; turns = row.count; turn = (counted_at counted.now row.head).left } }
{
    LoopCost {
        head: row.head,
        lend: row.lend,
        turns: row.count,
        turn: counted.get(row.head as usize).map_or(0, |cost| cost.left),
    }
}

/// The cost of each loop.
fn by_loop(
    alloc: Global,
    image: &Image,
    listing: &Listing,
    counted: &[Counted],
) -> Result<Vec<LoopCost>, AllocError>
    requires { AreCounted image.now.loops listing.now counted.now }
    ensures { IfOk result (λ all. all.items ≡ map (loop_cost image.now.loops listing.now) image.now.loops) }
{
    let mut all = Vec::with_capacity(alloc, image.loops.len())?;
    for row in &image.loops {
        all.push(of_loop(*row, counted))?;
    }
    Ok(all)
}

/// Where the bytes of a code go, within the limit on budgets or not.
#[derive(Drop)]
pub(crate) struct CodeCosts {
    /// Of each loop, in the order of rows.
    pub(crate) loops: Vec<LoopCost>,
    /// By address: none where no instruction begins.
    pub(crate) by_address: Vec<Option<Counted>>,
}

/// Where the bytes of a code go.
pub(crate) fn costs_of_code(
    alloc: Global,
    image: &Image,
    listing: &Listing,
) -> Result<CodeCosts, AllocError>
    requires { IsCutting image.now.code listing.now }
    ensures loops { IfOk result
        (λ costs. costs.loops.items ≡ map (loop_cost image.now.loops listing.now) image.now.loops) }
    ensures by_address { IfOk result
        (λ costs. AreByAddress image.now.loops listing.now (length image.now.code) costs.by_address.items) }
{
    let counted = costs(alloc, image, listing)?;
    Ok(CodeCosts {
        loops: by_loop(alloc, image, listing, &counted)?,
        by_address: by_address(alloc, image, listing, &counted)?,
    })
}

/// Where the bytes of an accepted image go.
fn costs_of_accepted(alloc: Global, accepted: &Accepted) -> Result<Costs, AllocError>
    ensures costs { IfOk result (AreCostsOf accepted.now.image) }
    ensures budget { IfOk result (λ costs. costs.budget ≡ accepted.now.budget) }
{
    let listing = listing_of(alloc, accepted)?;
    let CodeCosts { loops, by_address } = costs_of_code(alloc, accepted.image(), &listing)?;
    Ok(Costs {
        budget: accepted.budget(),
        loops,
        by_address,
    })
}

/// Where the bytes of an accepted image go. Each cost is the most instruction bytes that can be executed, or the greatest
/// number of 64 bits where that is less.
pub fn costs_of(alloc: Global, accepted: &Accepted) -> Result<Costs, AllocError>
    ensures costs { IfOk result (AreCostsOf accepted.now.image) }
    ensures budget { IfOk result (λ costs. costs.budget ≡ accepted.now.budget) }
    ensures starts { IsAcceptable accepted.now.image accepted.now.budget → IfOk result BeginsWithBudget }
{
    costs_of_accepted(alloc, accepted)
}
