//! The rules on instructions.

ghost use Rattle.std.specs.Prelude.{◌≡◌, Some, slice_get};
ghost use Rattle.tp_flow.specs.NestRanges.{ranges};
ghost use Rattle.tp_flow.specs.FlowFaults.{instruction_faults};
ghost use Rattle.tp_flow.specs.JumpRules.{broken_rule, is_orphan_lend, breaks_the_nest, runs_off, jump_rules};
ghost use Rattle.tp_flow.specs.JumpRules.{first_broken};
ghost use Rattle.tp_flow.specs.RowRules.{is_start};
ghost use Rattle.tp_flow.specs.Stretches.{IsStretch};

use crate::edge::{Edge, has_edge, jump_operand, jump_target};
use crate::fault::{FlowCode, FlowFault};
use crate::nest::{Nest, Stretch};
use tp_decode::{Instr, Listing, Placed};
use tp_image::Image;

/// The fault of the first instruction that breaks a rule, by rising address.
pub(crate) fn instruction_fault(image: &Image, listing: &Listing, nest: &Nest) -> Option<FlowFault>
    requires { nest.now ≡ ranges image.now.loops }
    ensures { result ≡ slice_get (instruction_faults image.now listing.now) 0 }
{
    let mut stretch = nest.stretch(0);
    for i in 0..listing.len() {
        let placed = listing.get(i).unwrap();
        stretch = reaching(nest, stretch, placed.at);
        if let Some(code) = broken_rule(image, listing, nest, stretch, placed) {
            let place = placed.at;
            return Some(FlowFault { code, place });
        }
    }
    None
}

/// The first rule that an instruction breaks, where a stretch is known.
fn broken_rule(
    image: &Image,
    listing: &Listing,
    nest: &Nest,
    stretch: Stretch,
    placed: Placed,
) -> Option<FlowCode>
    requires nest { nest.now ≡ ranges image.now.loops }
    requires stretch { IsStretch nest.now stretch.first stretch.last }
    ensures { result ≡ broken_rule image.now listing.now placed }
{
    let Placed { at, instr, next } = placed;
    if is_orphan_lend(nest, at, instr) {
        return Some(FlowCode::J7);
    }
    if let Some(operand) = jump_operand(instr)
        && let Some(code) = broken_by_jump(image, listing, nest, stretch, at, next, operand)
    {
        return Some(code);
    }
    if runs_off(image, next, instr) {
        return Some(FlowCode::J5);
    }
    None
}

/// Whether it is a lend that no row names.
fn is_orphan_lend(nest: &Nest, at: usize, instr: Instr) -> bool
    ensures { result ≡ is_orphan_lend nest.now at instr }
{
    match instr {
        Instr::Lend => nest.lend_row(at).is_none(),
        _ => false,
    }
}

/// Whether control runs off behind an instruction at the end of the code.
fn runs_off(image: &Image, next: usize, instr: Instr) -> bool
    ensures { result ≡ runs_off image.now.code next instr }
{
    next == image.code.len() && (has_edge(instr, Edge::Next) || has_edge(instr, Edge::Out))
}

/// The first rule that a jump by an operand breaks, where a stretch is known.
fn broken_by_jump(
    image: &Image,
    listing: &Listing,
    nest: &Nest,
    stretch: Stretch,
    at: usize,
    next: usize,
    operand: i32,
) -> Option<FlowCode>
    requires nest { nest.now ≡ ranges image.now.loops }
    requires stretch { IsStretch nest.now stretch.first stretch.last }
    ensures { result ≡ first_broken (jump_rules image.now listing.now at next operand) }
{
    let Some(to) = jump_target(next, operand) else {
        return Some(FlowCode::J2);
    };
    if image.code.len() <= to {
        Some(FlowCode::J2)
    } else if operand < 0 {
        Some(FlowCode::J3)
    } else if !is_start(listing, to) {
        Some(FlowCode::J1)
    } else if breaks_the_nest(nest, stretch, at, to) {
        Some(FlowCode::J4)
    } else {
        None
    }
}

/// Whether an instruction starts at an address.
pub(crate) fn is_start(listing: &Listing, at: usize) -> bool
    ensures { result ≡ is_start listing.now at }
{
    listing.index_of(at).is_some()
}

/// Whether a way between two addresses leaves a loop, or enters one at another place than its head.
fn breaks_the_nest(nest: &Nest, stretch: Stretch, at: usize, to: usize) -> bool
    requires { IsStretch nest.now stretch.first stretch.last }
    ensures { result ≡ breaks_the_nest nest.now at (Some to) }
{
    if stretch.has_both(at, to) {
        return false;
    }
    nest.loops().iter().any(|range| range.is_left(at, to) || range.is_entered_inside(at, to))
}

/// The stretch, if it reaches an address from below, or the one from that address on.
fn reaching(nest: &Nest, stretch: Stretch, at: usize) -> Stretch
    requires { IsStretch nest.now stretch.first stretch.last }
    ensures { IsStretch nest.now result.first result.last }
{
    if stretch.last < at {
        nest.stretch(at)
    } else {
        stretch
    }
}
