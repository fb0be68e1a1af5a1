//! Why nothing is worked out.

use std::alloc::{AllocError, AllocFailed};

/// Why nothing is worked out.
#[derive(Clone, Copy, Debug, PartialEq, Eq)]
pub enum Fault {
    /// A growth was refused.
    Memory,
    /// More lies within one another than is allowed.
    Deep,
    /// The text means nothing.
    Wrong,
}

impl From<AllocError> for Fault {
    fn from(_: AllocError) -> Fault {
        Fault::Memory
    }
}

impl<T: Drop> From<AllocFailed<T>> for Fault {
    fn from(_: AllocFailed<T>) -> Fault {
        Fault::Memory
    }
}
