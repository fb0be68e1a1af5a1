//! The passes over whole tables: a state for each address, and each edge in each pass.

ghost use Rattle.std.specs.Prelude.{◌≡◌, All, IfOk, IfSome, length, map};
ghost use Rattle.tp_flow.specs.NestRanges.{ranges};
ghost use Rattle.tp_state.specs.Conditions.{HasGoodLoops, IsPlaced};

use std::alloc::{AllocError, Global};
use tp_decode::{Instr, Listing, Placed};
use tp_flow::{Edge, Nest, edges};
use tp_image::Image;
use tp_state::{State, StateFault, after};

/// The states before the instructions: by address, or nothing.
#[derive(Drop)]
pub(crate) struct Whole {
    pub(crate) states: Vec<Option<State>>,
}

impl Whole {
    /// At first the first instruction alone has a state.
    pub(crate) fn first(alloc: Global, image: &Image) -> Result<Whole, AllocError>
        ensures { IfOk result (λ w. All (λ o. IfSome o (IsPlaced image.now)) w.states.items) }
    {
        let mut states = Vec::new(alloc);
        let first = State::entry(alloc, image)?;
        states.push(Some(first))?;
        for _ in 0..image.code.len() {
            states.push(None)?;
        }
        Ok(Whole { states })
    }

    /// Each edge once, by rising address. It answers whether anything changed.
    pub(crate) fn pass(
        &mut self,
        alloc: Global,
        image: &Image,
        listing: &Listing,
        nest: &Nest,
    ) -> Result<bool, StateFault>
        requires good { HasGoodLoops image.now }
        requires nest { nest.now ≡ ranges image.now.loops }
        requires placed { All (λ o. IfSome o (IsPlaced image.now)) self.old.states.items }
        ensures { All (λ o. IfSome o (IsPlaced image.now)) self.new.states.items }
    {
        let mut changed = false;
        for i in 0..listing.len() {
            if let Some(place) = listing.get(i) {
                if self.take_edges(alloc, image, nest, place)? {
                    changed = true;
                }
            }
        }
        Ok(changed)
    }

    /// The edges of an instruction, one after another.
    fn take_edges(
        &mut self,
        alloc: Global,
        image: &Image,
        nest: &Nest,
        place: Placed,
    ) -> Result<bool, StateFault>
        requires good { HasGoodLoops image.now }
        requires nest { nest.now ≡ ranges image.now.loops }
        requires placed { All (λ o. IfSome o (IsPlaced image.now)) self.old.states.items }
        ensures { All (λ o. IfSome o (IsPlaced image.now)) self.new.states.items }
    {
        let mut changed = false;
        for edge in asked(place.instr) {
            if self.take(alloc, image, nest, place, *edge)? {
                changed = true;
            }
        }
        Ok(changed)
    }

    /// An edge: what is known after it is joined at its target.
    fn take(
        &mut self,
        alloc: Global,
        image: &Image,
        nest: &Nest,
        place: Placed,
        edge: Edge,
    ) -> Result<bool, StateFault>
        requires good { HasGoodLoops image.now }
        requires nest { nest.now ≡ ranges image.now.loops }
        requires placed { All (λ o. IfSome o (IsPlaced image.now)) self.old.states.items }
        ensures { All (λ o. IfSome o (IsPlaced image.now)) self.new.states.items }
    {
        let Placed { at, instr, next } = place;
        if at >= self.states.len() {
            return Ok(false);
        }
        let Some(outcome) = outcome(alloc, &self.states[at], image, nest, place, edge)? else {
            return Ok(false);
        };
        match nest.target(at, next, instr, edge) {
            Some(to) if to < self.states.len() => meet(&mut self.states[to], image, to, outcome),
            _ => Ok(false),
        }
    }
}

/// The state after an edge, if anything is before it.
fn outcome(
    alloc: Global,
    state: &Option<State>,
    image: &Image,
    nest: &Nest,
    place: Placed,
    edge: Edge,
) -> Result<Option<State>, StateFault>
    requires good { HasGoodLoops image.now }
    requires nest { nest.now ≡ ranges image.now.loops }
    requires placed { IfSome state.now (IsPlaced image.now) }
    ensures { IfOk result (λ o. IfSome o (IsPlaced image.now)) }
{
    let Placed { at, instr, next } = place;
    match state {
        Some(state) => {
            let known = after(alloc, state, at, next, instr, edge, image, nest)?;
            Ok(Some(known))
        }
        None => Ok(None),
    }
}

/// Joins a state at an address, where another may be already. It answers whether anything changed.
fn meet(
    there: &mut Option<State>,
    image: &Image,
    to: usize,
    state: State,
) -> Result<bool, StateFault>
    requires there { IfSome there.old (IsPlaced image.now) }
    requires state { IsPlaced image.now state }
    ensures { IfSome there.new (IsPlaced image.now) }
{
    image.law_is_in_range();
    match there {
        Some(met) => match met.join(&state) {
            Ok(changed) => Ok(changed),
            Err(code) => Err(StateFault::Refused { code, place: to }),
        },
        None => {
            *there = Some(state);
            Ok(true)
        }
    }
}

/// The edges that an instruction's rule is asked on.
pub(crate) fn asked(instr: Instr) -> &'static [Edge] {
    match instr {
        Instr::Stopp => &[Edge::Next],
        instr => edges(instr),
    }
}
