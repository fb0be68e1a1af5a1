//! Why a batch gives nothing.

ghost use Rattle.std.specs.Prelude.{◌≡◌};
ghost use Rattle.tp_farm.specs.declared.fault.FarmFault.TheVariants.{Memory};

use std::alloc::AllocError;
use thiserror::Error;

/// Why a batch gives no result. The links are dropped.
#[derive(Clone, Copy, Debug, PartialEq, Eq, Error)]
pub enum FarmFault {
    /// G1: there are not 1 to 64 links.
    #[error("G1: not 1 to 64 members")]
    Members,
    /// G2: there are more than 1,024 packets.
    #[error("G2: more than 1024 packets")]
    Packets,
    /// G3: the packet of this number has another length than the image's, and none before it has.
    #[error("G3: packet {0} has another length")]
    Length(u32),
    /// G4: a thread could not be started. The members that were started have ended.
    #[error("G4: no thread")]
    Thread,
    /// Memory was refused.
    #[error("memory")]
    Memory,
}

impl From<AllocError> for FarmFault {
    ghost from_gives = { λ _ fault. fault ≡ Memory };

    fn from(_refused: AllocError) -> FarmFault {
        FarmFault::Memory
    }
}
