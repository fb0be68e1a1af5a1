//! The addresses where edges join.

ghost use Rattle.std.specs.Prelude.{◌≡◌, ◌<◌, ◌==◌, ◌++◌, ℕ, List, length, IfOk};
ghost use Rattle.tp_decode.specs.Cutting.{Cut};
ghost use Rattle.tp_decode.specs.declared.placed.Placed.{Placed as APlace};
ghost use Rattle.tp_flow.specs.declared.edge.Edge.{Edge as AnEdge};
ghost use Rattle.tp_flow.specs.NestRanges.{ranges};
ghost use Rattle.tp_flow.specs.NestKept.{KeepsNest};
ghost use Rattle.tp_check.specs.Passes.{edges_in, edges_of};
ghost use Rattle.tp_check.specs.Carried.{is_kept, IsAmong};
ghost use Rattle.tp_check.specs.UnderWay.{AreJoins, MayBeTaken};
ghost use Rattle.tp_check.specs.Arrivals.{HasPlaces};
ghost use Rattle.tp_check.specs.Joining.{is_join, is_join_at, is_kept_at, with_edge, ArePredecessors};

use crate::passes::asked;
use std::alloc::{AllocError, Global};
use std::marker::Model;
use tp_decode::{Listing, Placed};
use tp_flow::Nest;
use tp_image::Image;

/// How control reaches an address.
#[derive(Clone, Copy, PartialEq, Eq)]
pub(crate) enum Predecessor {
    /// By no edge.
    Unreached,
    /// By one edge alone, from the instruction before it.
    FallThrough,
    /// By one edge alone, which is a jump.
    Jump,
    /// By two edges or more; or it is the first address, or a loop's head.
    Joined,
}

impl Predecessor {
    /// Adds an edge.
    fn with_edge(self, falls: bool) -> Predecessor
        ensures { result ≡ with_edge falls self }
    {
        match self {
            Predecessor::Unreached if falls => Predecessor::FallThrough,
            Predecessor::Unreached => Predecessor::Jump,
            _ => Predecessor::Joined,
        }
    }
}

/// How control reaches each address of a code.
#[derive(Drop)]
pub(crate) struct Predecessors {
    predecessors: Vec<Predecessor>,
}

impl Model for Predecessors {
    ghost use Rattle.std.specs.Prelude.{List};
    ghost use Rattle.tp_check.specs.declared.predecessors.Predecessor.{Predecessor};

    ghost Value = { List Predecessor };

    ghost view = { λ w. w.predecessors.items };
}

impl Predecessors {
    /// Of a code whose flow has passed, and which has this many addresses.
    pub(crate) fn of(
        alloc: Global,
        image: &Image,
        listing: &Listing,
        nest: &Nest,
        places: usize,
    ) -> Result<Predecessors, AllocError>
        requires kept { KeepsNest image.now.loops image.now.workspace listing.now }
        requires nest { nest.now ≡ ranges image.now.loops }
        requires some { 0 < places }
        requires places { HasPlaces listing.now places }
        ensures is_join { IfOk result (λ predecessors. AreJoins image.now listing.now (is_join_at predecessors)) }
        ensures is_kept { IfOk result (λ predecessors. (at : ℕ) →
            is_kept_at predecessors at ≡ is_kept image.now listing.now at) }
    {
        let mut predecessors = Predecessors::beginning(alloc, image, listing, places)?;
        for i in 0..listing.len() {
            if let Some(place) = listing.get(i) {
                predecessors.count(image, nest, place);
            }
        }
        Ok(predecessors)
    }

    /// Before any edge is counted.
    fn beginning(
        alloc: Global,
        image: &Image,
        listing: &Listing,
        places: usize,
    ) -> Result<Predecessors, AllocError>
        requires kept { KeepsNest image.now.loops image.now.workspace listing.now }
        requires some { 0 < places }
        requires places { HasPlaces listing.now places }
        ensures sized { IfOk result (λ predecessors. length predecessors ≡ places) }
        ensures reports { IfOk result (ArePredecessors image.now listing.now (edges_in listing.now)) }
    {
        let mut predecessors = vec![in alloc; Predecessor::Unreached; places]?;
        predecessors[0] = Predecessor::Joined;
        for row in &image.loops {
            predecessors[row.head as usize] = Predecessor::Joined;
        }
        Ok(Predecessors { predecessors })
    }

    /// Counts the edges of an instruction.
    fn count(&mut self, image: &Image, nest: &Nest, place: Placed)
        requires nest { nest.now ≡ ranges image.now.loops }
        requires place { MayBeTaken image.now (length self.old) place }
        ensures sized { length self.new ≡ length self.old }
        ensures reports { (cuts : List Cut) (rest : List (APlace × AnEdge)) →
            ((e : APlace × AnEdge) → IsAmong (edges_of place) e → IsAmong (edges_in cuts) e) →
            ArePredecessors image.now cuts (edges_of place ++ rest) self.old →
            ArePredecessors image.now cuts rest self.new }
    {
        let edges = asked(place.instr);
        for edge in edges {
            if let Some(to) = nest.target(place.at, place.next, place.instr, *edge) {
                self.predecessors[to] = self.predecessors[to].with_edge(to == place.next);
            }
        }
    }

    /// Whether a state is kept at an address while the passes are made.
    pub(crate) fn is_join(&self, at: usize) -> bool
        ensures { result ≡ is_join_at self.now at }
    {
        match self.predecessors.get(at) {
            Some(way) => matches!(way, Predecessor::Jump | Predecessor::Joined),
            None => false,
        }
    }

    /// Whether one is kept in the table.
    pub(crate) fn is_kept(&self, at: usize) -> bool
        ensures { result ≡ is_kept_at self.now at }
    {
        match self.predecessors.get(at) {
            Some(way) => matches!(way, Predecessor::Joined),
            None => false,
        }
    }
}
