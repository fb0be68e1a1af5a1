//! Why nothing was read.

use std::alloc::{AllocError, AllocFailed};
use tpw_occam_terms::Fault;

/// Why nothing was read.
#[derive(Clone, Copy)]
pub(crate) enum Stop {
    Fault(Fault),
    Memory,
}

impl From<AllocError> for Stop {
    fn from(_: AllocError) -> Self {
        Stop::Memory
    }
}

impl<T: Drop> From<AllocFailed<T>> for Stop {
    fn from(_: AllocFailed<T>) -> Self {
        Stop::Memory
    }
}
