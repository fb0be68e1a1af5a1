//! The passes over whole tables, up to the first refusal.

ghost use Rattle.std.specs.Prelude.{◌≡◌, ◌++◌, length, None, Ok, Err, IfOk, OnOk, OnErr, All};
ghost use Rattle.tp_flow.specs.NestKept.{KeepsNest};
ghost use Rattle.tp_flow.specs.NestRanges.{ranges};
ghost use Rattle.tp_state.specs.Conditions.{HasGoodLoops};
ghost use Rattle.tp_state.specs.declared.fault.StateFault.TheVariants.{Refused};
ghost use Rattle.tp_check.specs.Tables.{Table, asked, table_of, HasPlacedStates};
ghost use Rattle.tp_check.specs.Passes.{edges_in, edges_of, go_along, IsVerdict};
ghost use Rattle.tp_check.specs.UnderWay.{MayBeTaken};
ghost use Rattle.tp_check.specs.Rising.{Moves};
ghost use Rattle.tp_check.specs.Arrivals.{Gives};
ghost use Rattle.tpw_why.specs.FirstRefusals.{IfFound, IsFirstRefusal, EndsAs};

use crate::refusal::{EdgeRefusal, FirstRefusal};
use std::alloc::{AllocError, Global};
use tp_check::{asked, enter, first_states, places_of, state_at};
use tp_decode::{Listing, Placed};
use tp_flow::{Edge, Nest};
use tp_image::Image;
use tp_state::{State, StateFault, after};

/// An instruction, and an edge that its rule is asked on.
type Asked = (Placed, Edge);

/// The first refusal of the passes over a code whose flow has passed, with what is known then; none where a pass
/// changes nothing, and the table is the verdict. The passes are the definition's, over a state for each address. They
/// take longer than `tp_check::check_states`: some tenths of a second for a code whose author wants to be refused late.
pub fn first_refusal(
    alloc: Global,
    image: &Image,
    listing: &Listing,
    nest: &Nest,
) -> Result<Option<FirstRefusal>, AllocError>
    requires kept { KeepsNest image.now.loops image.now.workspace listing.now }
    requires nest { nest.now ≡ ranges image.now.loops }
    ensures first { IfFound result (IsFirstRefusal image.now listing.now) }
    ensures verdict { IfFound result
        (λ r. IsVerdict image.now listing.now (Err (Refused r.refusal.code r.refusal.place))) }
    ensures placed { IfFound result (λ r. HasPlacedStates image.now (table_of r.table.items)) }
    ensures none { IfOk result
        (λ found. found ≡ None → (table : Table) × IsVerdict image.now listing.now (Ok table)) }
{
    // So its passes are fewer than 2^128.
    image.law_is_in_range();
    let asked = edges_of_code(alloc, listing)?;
    let mut table = first_states(alloc, image, places_of(listing))?;
    let mut passes = 0u128;
    let mut is_changed = true;
    while is_changed {
        match pass(alloc, image, nest, &asked, &mut table)? {
            Ok(changed) => is_changed = changed,
            Err(refusal) => {
                return Ok(Some(FirstRefusal {
                    passes,
                    refusal,
                    table,
                }));
            }
        }
        passes += 1;
    }
    Ok(None)
}

/// The edges that the passes over a code take, in their order.
pub(crate) fn edges_of_code(alloc: Global, listing: &Listing) -> Result<Vec<Asked>, AllocError>
    ensures { IfOk result (λ all. all.items ≡ edges_in listing.now) }
{
    let mut all = Vec::new(alloc);
    for i in 0..listing.len() {
        if let Some(place) = listing.get(i) {
            add_edges(&mut all, place)?;
        }
    }
    Ok(all)
}

/// The edges of an instruction come behind others.
fn add_edges(all: &mut Vec<Asked>, place: Placed) -> Result<(), AllocError>
    ensures { OnOk result (all.new.items ≡ all.old.items ++ edges_of place) }
{
    for edge in asked(place.instr) {
        all.push((place, *edge))?;
    }
    Ok(())
}

/// One pass: each edge in turn, up to the first that is refused. It answers whether a state has changed, or with that
/// refusal.
fn pass(
    alloc: Global,
    image: &Image,
    nest: &Nest,
    asked: &[Asked],
    table: &mut [Option<State>],
) -> Result<Result<bool, EdgeRefusal>, AllocError>
    requires good { HasGoodLoops image.now }
    requires nest { nest.now ≡ ranges image.now.loops }
    requires places { All (λ e. MayBeTaken image.now (length table.old) e.0) asked.now }
    requires placed { HasPlacedStates image.now (table_of table.old) }
    ensures sized { length table.new ≡ length table.old }
    ensures placed { HasPlacedStates image.now (table_of table.new) }
    ensures ends { IfOk result (EndsAs image.now asked.now (table_of table.old) (table_of table.new)) }
    ensures moves { IfOk result (λ ended. IfOk ended (λ moved. Moves image.now moved table.old table.new)) }
{
    let mut is_changed = false;
    for (instruction, edge) in asked {
        match take(alloc, image, nest, *instruction, *edge, table) {
            Ok(changed) => is_changed |= changed,
            Err(StateFault::Refused { code, place }) => {
                return Ok(Err(EdgeRefusal {
                    instruction: *instruction,
                    edge: *edge,
                    code,
                    place,
                }));
            }
            Err(StateFault::Memory) => return Err(AllocError),
        }
    }
    Ok(Ok(is_changed))
}

/// An edge is taken: where there is a state before its instruction, what is known after it is joined at its target. It
/// answers whether a state has changed.
fn take(
    alloc: Global,
    image: &Image,
    nest: &Nest,
    instruction: Placed,
    edge: Edge,
    table: &mut [Option<State>],
) -> Result<bool, StateFault>
    requires good { HasGoodLoops image.now }
    requires nest { nest.now ≡ ranges image.now.loops }
    requires places { MayBeTaken image.now (length table.old) instruction }
    requires placed { HasPlacedStates image.now (table_of table.old) }
    ensures sized { length table.new ≡ length table.old }
    ensures placed { HasPlacedStates image.now (table_of table.new) }
    ensures gives { Gives result (table_of table.new)
        (go_along image.now instruction edge (table_of table.old instruction.at) (table_of table.old)) }
    ensures moves { IfOk result (λ moved. Moves image.now moved table.old table.new) }
    ensures stays { OnErr result (table.new ≡ table.old) }
{
    let Placed { at, instr, next } = instruction;
    let Some(before) = state_at(table, at) else {
        return Ok(false);
    };
    let outcome = after(alloc, before, at, next, instr, edge, image, nest)?;
    outcome.law_has_word_ends();
    match nest.target(at, next, instr, edge) {
        Some(to) => enter(alloc, table, to, &outcome, false),
        None => Ok(false),
    }
}
