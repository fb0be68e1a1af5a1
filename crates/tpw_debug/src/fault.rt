//! Why a text could not be written.

ghost use Rattle.std.specs.Prelude.{◌≡◌};
ghost use Rattle.tpw_debug.specs.declared.fault.ShowFault.TheVariants.{Memory};

use std::alloc::{AllocError, AllocFailed};
use thiserror::Error;

/// Why what a tool shows could not be written.
#[derive(Clone, Copy, Debug, PartialEq, Eq, Error)]
pub enum ShowFault {
    #[error("memory")]
    Memory,
    #[error("write")]
    Write,
}

impl From<AllocError> for ShowFault {
    ghost from_gives = { λ _ e. e ≡ Memory };

    fn from(_: AllocError) -> Self {
        ShowFault::Memory
    }
}

impl<T: Drop> From<AllocFailed<T>> for ShowFault {
    ghost from_gives = { λ _ e. e ≡ Memory };

    fn from(_: AllocFailed<T>) -> Self {
        ShowFault::Memory
    }
}
