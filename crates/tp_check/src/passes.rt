//! The fixpoint: states are propagated along edges, in passes, until a pass changes nothing.

ghost use Rattle.std.specs.Prelude.{◌≡◌, ◌≢◌, ◌<◌, ◌≤◌, ◌+◌, ◌^◌, ◌∷◌, [], ℕ, true, false, length, List, Some, Ok};
ghost use Rattle.std.specs.Prelude.{IfOk, IfErr, IfSome, OnOk};
ghost use Rattle.std.specs.List.{AllByRecursion};
ghost use Rattle.tp_decode.specs.Cutting.{Cut, IsSpelled};
ghost use Rattle.tp_flow.specs.declared.edge.Edge.{Edge as AnEdge};
ghost use Rattle.tp_flow.specs.NestRanges.{ranges};
ghost use Rattle.tp_flow.specs.NestKept.{KeepsNest};
ghost use Rattle.tp_image.specs.Image.{InRange};
ghost use Rattle.tp_state.specs.Order.{IsBelow, ReportsChange};
ghost use Rattle.tp_state.specs.declared.fault.StateFault.TheVariants as fault;
ghost use Rattle.tp_check.specs.Tables.{table_of, asked};
ghost use Rattle.tp_check.specs.EdgesRespect.{HasNoTable};
ghost use Rattle.tp_check.specs.Passes.{enter, edges_of, edges_in, IsRefusalOf};
ghost use Rattle.tp_check.specs.Carried.{over, IsTableOf};
ghost use Rattle.tp_check.specs.StatesThere.{AreStatesThere};
ghost use Rattle.tp_check.specs.Joining.{is_join_at};
ghost use Rattle.tp_check.specs.UnderWay.{is_in, AreJoins, AreLeft, IsApart, MayStep, IsInCode, IsBefore};
ghost use Rattle.tp_check.specs.Steps.{IsBeginning, MayPass, Leaves, HasWhole, Carries, TakesEdges, marked, SameButStates};
ghost use Rattle.tp_check.specs.Steps.{IsStarted, IsAfterEdge, IsLedOn, IsSettled};
ghost use Rattle.tp_check.specs.Rising.{Moves};
ghost use Rattle.tp_check.specs.Arrivals.{HasPlaces, Gives, ArrivedBefore};

use crate::predecessors::Predecessors;
use crate::states::{enter, first_states, read_into};
use crate::table::Table;
use std::alloc::{AllocError, Global};
use std::mem;
use tp_decode::{Instr, Listing, Placed};
use tp_flow::{Edge, Nest, edges};
use tp_image::Image;
use tp_state::{State, StateFault};

/// The least fixpoint of an image's rules, of an image whose flow has passed and of its code's listing: the states of
/// the verdict's table at the first address, at those that two edges reach, and at loops' heads. Refused is the first
/// refusal of the passes, and then no table exists that every edge respects; Memory is a growth that was refused.
///
/// ```
/// let image = read_image(alloc, INCREMENT)?;
/// let listing = decode(alloc, &image.code)?;
/// let nest = check_flow(&image, &listing)?;
/// let table = check_states(alloc, &image, &listing, &nest)?;
/// // No edges join in it, so only the state before its first instruction is kept.
/// assert_eq!(table.states.len(), 1);
/// ```
pub fn check_states(
    alloc: Global,
    image: &Image,
    listing: &Listing,
    nest: &Nest,
) -> Result<Table, StateFault>
    requires kept { KeepsNest image.now.loops image.now.workspace listing.now }
    requires nest { nest.now ≡ ranges image.now.loops }
    ensures table { IfOk result (λ table. IsTableOf image.now listing.now table.states.items) }
    ensures states { IfOk result (λ table. AreStatesThere image.now table.states.items) }
    ensures refused { IfErr result (IsRefusalOf image.now listing.now) }
    // Where anything but memory is refused, no table exists that every edge respects.
    ensures exact { IfErr result (λ e. e ≢ fault.Memory → HasNoTable image.now listing.now) }
{
    let places = places_of(listing);
    let predecessors = Predecessors::of(alloc, image, listing, nest, places)?;
    let states = settle(alloc, image, listing, nest, places, &predecessors)?;
    Ok(Table::of(alloc, states, &predecessors)?)
}

/// The states at joins once a pass leaves nothing to propagate; or the first refusal.
fn settle(
    alloc: Global,
    image: &Image,
    listing: &Listing,
    nest: &Nest,
    places: usize,
    predecessors: &Predecessors,
) -> Result<Vec<Option<State>>, StateFault>
    requires kept { KeepsNest image.now.loops image.now.workspace listing.now }
    requires nest { nest.now ≡ ranges image.now.loops }
    requires join { AreJoins image.now listing.now (is_join_at predecessors.now) }
    requires some { 0 < places }
    requires few { places ≤ 2 ^ 32 }
    requires all { HasPlaces listing.now places }
    ensures settled { IfOk result (λ states. IsSettled image.now listing.now (is_join_at predecessors.now)
        states.items) }
    ensures refused { IfErr result (IsRefusalOf image.now listing.now) }
    ensures exact { IfErr result (λ e. e ≢ fault.Memory → HasNoTable image.now listing.now) }
    // Laws of every image and every listing.
    ensures in_range { InRange image.now }
    ensures spelled { AllByRecursion IsSpelled listing.now }
{
    listing.law_is_spelled();
    let mut passes = Passes::begin(alloc, image, places)?;
    let mut is_left = true;
    while is_left {
        is_left = passes.pass(alloc, image, listing, nest, predecessors)?;
    }
    Ok(passes.states)
}

/// The iteration, between two edges.
#[derive(Drop)]
pub(crate) struct Passes {
    /// `states[a]`: what is known at join `a`.
    states: Vec<Option<State>>,
    /// `changed[a]`: the state kept at join `a` has changed since it was last propagated. At first only `changed[0]`.
    changed: Vec<bool>,
    /// `taken[a]`: the state at join `a` was propagated before.
    taken: Vec<bool>,
    /// Whether a state is carried to the next instruction.
    is_carried: bool,
    /// Whether a state was propagated from this instruction before, and so is again to the next one.
    is_again: bool,
    /// The state before the instruction, and then after its edge.
    carried: State,
}

impl Passes {
    /// Before the first pass.
    pub(crate) fn begin(alloc: Global, image: &Image, places: usize) -> Result<Passes, AllocError>
        requires some { 0 < places }
        requires few { places ≤ 2 ^ 32 }
        ensures begins { IfOk result (IsBeginning image.now places) }
        // A law of every image.
        ensures in_range { InRange image.now }
    {
        image.law_is_in_range();
        let carried = State::entry(alloc, image)?;
        let states = first_states(alloc, image, places)?;
        let changed = first_marked(alloc, places)?;
        let taken = none_marked(alloc, places)?;
        Ok(Passes {
            states,
            changed,
            taken,
            is_carried: false,
            is_again: false,
            carried,
        })
    }

    /// One pass. Returns whether another is needed: a kept state has changed, and one is still marked.
    pub(crate) fn pass(
        &mut self,
        alloc: Global,
        image: &Image,
        listing: &Listing,
        nest: &Nest,
        predecessors: &Predecessors,
    ) -> Result<bool, StateFault>
        requires { MayPass image.now nest.now listing.now (is_join_at predecessors.now) self.old }
        ensures gives { TakesEdges image.now listing.now (is_join_at predecessors.now) (edges_in listing.now)
            self.old 0 result self.new 0 }
        ensures rests { OnOk result (self.new.is_carried ≡ false) }
        ensures leaves { IfOk result (λ is_left. Leaves image.now is_left self.old self.new) }
    {
        if self.take_all(alloc, image, listing, nest, predecessors)? {
            Ok(is_any(&self.changed))
        } else {
            Ok(false)
        }
    }

    /// Propagates along the edges of each instruction, by rising address. Returns whether a kept state has changed.
    fn take_all(
        &mut self,
        alloc: Global,
        image: &Image,
        listing: &Listing,
        nest: &Nest,
        predecessors: &Predecessors,
    ) -> Result<bool, StateFault>
        requires { MayPass image.now nest.now listing.now (is_join_at predecessors.now) self.old }
        ensures gives { TakesEdges image.now listing.now (is_join_at predecessors.now) (edges_in listing.now)
            self.old 0 result self.new 0 }
        ensures rests { OnOk result (self.new.is_carried ≡ false) }
        ensures moves { IfOk result (λ moved. Moves image.now moved self.old.states.items self.new.states.items) }
    {
        let mut moved = false;
        for i in 0..listing.len() {
            if let Some(place) = listing.get(i) {
                if self.take(alloc, image, nest, predecessors, place)? {
                    moved = true;
                }
            }
        }
        self.is_carried = false;
        Ok(moved)
    }

    /// Propagates along the edges of an instruction if a state is carried to it, or the one kept there is marked.
    /// Returns whether a kept state has changed.
    fn take(
        &mut self,
        alloc: Global,
        image: &Image,
        nest: &Nest,
        predecessors: &Predecessors,
        place: Placed,
    ) -> Result<bool, StateFault>
        requires step { MayStep image.now nest.now (length self.old.states.items) place }
        requires way { (cuts : List Cut) × IsInCode cuts place × AreJoins image.now cuts (is_join_at predecessors.now) ×
            HasWhole image.now cuts (is_join_at predecessors.now) self.old place.at }
        ensures gives { (cuts : List Cut) → IsInCode cuts place →
            AreJoins image.now cuts (is_join_at predecessors.now) →
            TakesEdges image.now cuts (is_join_at predecessors.now) (edges_of place) self.old place.at
            result self.new place.next }
        ensures moves { IfOk result (λ moved. Moves image.now moved self.old.states.items self.new.states.items) }
    {
        self.start(predecessors, place.at);
        if !self.is_carried {
            return Ok(false);
        }
        self.is_carried = false;
        self.take_edges(alloc, image, nest, predecessors, place)
    }

    /// At a join the kept state is carried from here on, if it is marked. One that is carried here is below it, and
    /// rises to it.
    fn start(&mut self, predecessors: &Predecessors, at: usize)
        requires stands { at < length self.old.states.items }
        requires inside { at < length self.old.changed.items }
        requires takes { at < length self.old.taken.items }
        requires sized { is_join_at predecessors.now at ≡ true →
            IfSome (table_of self.old.states.items at) (λ s. length s.cells ≡ length self.old.carried.cells) }
        requires below { is_join_at predecessors.now at ≡ true → self.old.is_carried ≡ true →
            IfSome (table_of self.old.states.items at) (IsBelow self.old.carried) }
        ensures started { is_join_at predecessors.now at ≡ true → IsStarted at self.old self.new }
        ensures other { is_join_at predecessors.now at ≡ false → self.new ≡ self.old }
        ensures states { self.new.states.items ≡ self.old.states.items }
    {
        if !predecessors.is_join(at) {
            return;
        }
        let arrives = self.is_carried;
        let is_marked = self.changed[at];
        self.changed[at] = false;
        self.is_carried = false;
        if !is_marked {
            return;
        }
        if read_into(&self.states, at, &mut self.carried, arrives) {
            self.is_carried = true;
            self.is_again = self.taken[at];
            self.taken[at] = true;
        }
    }

    /// Propagates along the edges of an instruction.
    fn take_edges(
        &mut self,
        alloc: Global,
        image: &Image,
        nest: &Nest,
        predecessors: &Predecessors,
        place: Placed,
    ) -> Result<bool, StateFault>
        requires step { MayStep image.now nest.now (length self.old.states.items) place }
        requires rests { self.old.is_carried ≡ false }
        requires way { AreLeft image.now (is_join_at predecessors.now) self.old place (asked place.instr) }
        ensures gives { (way : AreLeft image.now (is_join_at predecessors.now) self.old place (asked place.instr)) →
            Carries result (over image.now (is_join_at predecessors.now) (edges_of place) way.whole)
            (IsBefore image.now way.cuts (is_join_at predecessors.now) self.new place.next) }
        ensures moves { IfOk result (λ moved. Moves image.now moved self.old.states.items self.new.states.items) }
    {
        match asked(place.instr) {
            [edge] => self.take_edge(alloc, image, nest, predecessors, place, *edge),
            [first, last] => self.take_two(alloc, image, nest, predecessors, place, *first, *last),
            _ => Ok(false),
        }
    }

    /// Propagates along two edges, each from the carried state: the second from a copy. The one that leads to the next
    /// instruction is carried on.
    fn take_two(
        &mut self,
        alloc: Global,
        image: &Image,
        nest: &Nest,
        predecessors: &Predecessors,
        place: Placed,
        first: Edge,
        last: Edge,
    ) -> Result<bool, StateFault>
        requires step { MayStep image.now nest.now (length self.old.states.items) place }
        requires edges { asked place.instr ≡ first ∷ last ∷ [] }
        requires rests { self.old.is_carried ≡ false }
        requires way { AreLeft image.now (is_join_at predecessors.now) self.old place (asked place.instr) }
        ensures gives { (way : AreLeft image.now (is_join_at predecessors.now) self.old place (asked place.instr)) →
            Carries result (over image.now (is_join_at predecessors.now) (edges_of place) way.whole)
            (IsBefore image.now way.cuts (is_join_at predecessors.now) self.new place.next) }
        ensures moves { IfOk result (λ moved. Moves image.now moved self.old.states.items self.new.states.items) }
    {
        let mut other = self.carried.copy_of(alloc)?;
        let moved = self.take_edge(alloc, image, nest, predecessors, place, first)?;
        let is_next = self.is_carried;
        mem::swap(&mut self.carried, &mut other);
        let also = self.take_edge(alloc, image, nest, predecessors, place, last)?;
        if is_next {
            mem::swap(&mut self.carried, &mut other);
        }
        Ok(moved || also)
    }

    /// Propagates along an edge: the carried state becomes what is known after it, and arrives at the target.
    fn take_edge(
        &mut self,
        alloc: Global,
        image: &Image,
        nest: &Nest,
        predecessors: &Predecessors,
        place: Placed,
        edge: Edge,
    ) -> Result<bool, StateFault>
        requires step { MayStep image.now nest.now (length self.old.states.items) place }
        requires way { (later : List AnEdge) × IsApart edge later ×
            AreLeft image.now (is_join_at predecessors.now) self.old place (edge ∷ later) }
        ensures gives { (later : List AnEdge) → IsApart edge later →
            (way : AreLeft image.now (is_join_at predecessors.now) self.old place (edge ∷ later)) →
            Carries result (over image.now (is_join_at predecessors.now) ((place, edge) ∷ []) way.whole)
            (IsAfterEdge image.now way.cuts (is_join_at predecessors.now) self.old self.new place edge later
            way.whole) }
        ensures moves { IfOk result (λ moved. Moves image.now moved self.old.states.items self.new.states.items) }
    {
        let Placed { at, instr, next } = place;
        if let Err(code) = self.carried.transfer(at, next, instr, edge, image, nest) {
            return Err(StateFault::Refused { code, place: at });
        }
        match nest.target(at, next, instr, edge) {
            Some(to) => {
                self.lead_on(to, next);
                self.arrive(alloc, predecessors, to)
            }
            None => Ok(false),
        }
    }

    /// Carries the state on, if it goes on to the next instruction.
    fn lead_on(&mut self, to: usize, next: usize)
        ensures { IsLedOn to next self.old self.new }
    {
        if to == next {
            self.is_carried = true;
        }
    }

    /// The carried state arrives at an address: it is joined with the one kept there, if edges join there. Returns
    /// whether anything changed.
    fn arrive(
        &mut self,
        alloc: Global,
        predecessors: &Predecessors,
        to: usize,
    ) -> Result<bool, StateFault>
        requires inside { to < length self.old.states.items }
        requires flags { length self.old.changed.items ≡ length self.old.states.items }
        requires sized { is_join_at predecessors.now to ≡ true →
            IfSome (table_of self.old.states.items to) (λ s. length self.old.carried.cells ≡ length s.cells) }
        requires again { is_join_at predecessors.now to ≡ true → self.old.is_again ≡ true →
            ArrivedBefore (table_of self.old.states.items to) self.old.carried }
        ensures is_join { is_join_at predecessors.now to ≡ true →
            Gives result (table_of self.new.states.items) (enter (Some to) self.old.carried
            (table_of self.old.states.items)) }
        ensures marks { is_join_at predecessors.now to ≡ true →
            IfOk result (λ moved. self.new.changed.items ≡ marked moved to self.old.changed.items) }
        ensures rest { SameButStates self.old self.new }
        ensures alone { is_join_at predecessors.now to ≡ false → (result ≡ Ok false) × (self.new ≡ self.old) }
        ensures sized { length self.new.states.items ≡ length self.old.states.items }
        ensures reports { is_join_at predecessors.now to ≡ true →
            IfOk result (λ moved. ReportsChange moved self.old.states.items self.new.states.items) }
    {
        if !predecessors.is_join(to) {
            return Ok(false);
        }
        let moved = enter(alloc, &mut self.states, to, &self.carried, self.is_again)?;
        if moved {
            self.changed[to] = true;
        }
        Ok(moved)
    }
}

/// Marks the first address alone, which alone has a state before the first pass.
fn first_marked(alloc: Global, places: usize) -> Result<Vec<bool>, AllocError>
    requires { 0 < places }
    ensures sized { IfOk result (λ flags. length flags.items ≡ places) }
    ensures first { IfOk result (λ flags. is_in flags.items 0 ≡ true) }
{
    let mut flags = none_marked(alloc, places)?;
    flags[0] = true;
    Ok(flags)
}

/// A mark for each address, none set.
fn none_marked(alloc: Global, places: usize) -> Result<Vec<bool>, AllocError>
    ensures sized { IfOk result (λ flags. length flags.items ≡ places) }
    ensures none { IfOk result (λ flags. (at : ℕ) → at < places → is_in flags.items at ≡ false) }
{
    let flags = vec![in alloc; false; places]?;
    Ok(flags)
}

/// Whether an address is marked.
fn is_any(flags: &[bool]) -> bool
    ensures { result ≡ false → (at : ℕ) → is_in flags.now at ≡ false }
{
    for flag in flags {
        if *flag {
            return true;
        }
    }
    false
}

/// How many addresses there are, up to that of the last instruction: at least one.
pub fn places_of(listing: &Listing) -> usize
    ensures some { 0 < result }
    ensures few { result ≤ 2 ^ 32 }
    ensures all { HasPlaces listing.now result }
{
    match listing.starts().last() {
        Some(last) => *last as usize + 1,
        None => 1,
    }
}

/// The edges that an instruction's rule is asked on.
pub fn asked(instr: Instr) -> &'static [Edge]
    ensures { result.now ≡ asked instr }
{
    match instr {
        Instr::Stopp => &[Edge::Next],
        instr => edges(instr),
    }
}
