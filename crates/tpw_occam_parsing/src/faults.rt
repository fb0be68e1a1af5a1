//! The faults that are kept of a text.

use std::alloc::{AllocError, Global};
use tpw_occam_terms::{Fault, MAX_FAULTS};

/// The first faults of a text by their places, at most [`MAX_FAULTS`].
#[derive(Drop)]
pub(crate) struct Faults {
    first: Vec<Fault>,
}

impl Faults {
    pub(crate) fn new(alloc: Global) -> Self {
        Faults {
            first: Vec::new(alloc),
        }
    }

    /// Puts one more at its place.
    pub(crate) fn put(&mut self, fault: Fault) -> Result<(), AllocError> {
        let behind = self
            .first
            .iter()
            .position(|other| fault.span.is_before(other.span));
        match behind {
            Some(at) => self.first.insert(at, fault)?,
            None => self.first.push(fault)?,
        }
        self.first.truncate(MAX_FAULTS);
        Ok(())
    }

    pub(crate) fn into_vec(self) -> Vec<Fault> {
        self.first
    }
}
