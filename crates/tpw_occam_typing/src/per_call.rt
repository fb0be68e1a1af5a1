//! Names that stand for another constant, or an array of another size, in each call.

use std::alloc::{AllocError, Global};
use tpw_occam_terms::Span;

/// Parameters, and what is declared by means of them.
#[derive(Drop)]
pub struct PerCall {
    /// Where they are declared.
    places: Vec<Span>,
    /// How often one of them was looked up.
    uses: u64,
}

/// A point in a text that is checked: how often such a name was looked up before it.
#[derive(Clone, Copy, PartialEq)]
pub struct Point {
    uses: u64,
}

impl PerCall {
    pub(crate) fn new(alloc: Global) -> PerCall {
        PerCall {
            places: Vec::new(alloc),
            uses: 0,
        }
    }

    /// Adds a name, by the place of its declaration.
    pub fn add(&mut self, place: Span) -> Result<(), AllocError> {
        if self.has(place) {
            return Ok(());
        }
        self.places.push(place)?;
        Ok(())
    }

    fn has(&self, place: Span) -> bool {
        self.places.iter().any(|it| *it == place)
    }

    /// Counts the use of a name that is declared at a place, if it is one of these.
    pub fn look_up(&mut self, place: Span) {
        if self.has(place) {
            self.uses = self.uses.saturating_add(1);
        }
    }

    /// The point that is reached.
    pub fn point(&self) -> Point {
        Point { uses: self.uses }
    }
}
