//! Why a text gives no packets, and why a run ends before all packets are run.

ghost use Rattle.std.specs.Prelude.{◌≡◌};
ghost use Rattle.tpw_runs.specs.declared.fault.PacketFault.TheVariants as packet;
ghost use Rattle.tpw_runs.specs.declared.fault.RunFault.TheVariants as run;

use std::alloc::{AllocError, AllocFailed};
use thiserror::Error;
use tpw_text::Position;

/// The fault of a line that says no message.
#[derive(Clone, Copy, Debug, PartialEq, Eq, Error)]
pub enum PacketKind {
    #[error("a number is wanted: decimal, #2A or 0x2A, of 32 bits")]
    NoNumber,
    /// The line is a message in hexadecimal, where words are read.
    #[error("this is hexadecimal as it is sent, and numbers are wanted: --hex-packets and --hex-expect read it")]
    Hexadecimal,
    /// The line has another number of words than a message.
    #[error("{found} words, and {wanted} are wanted")]
    Length { found: usize, wanted: usize },
    /// The line is no field of this number of hexadecimal digits.
    #[error("{0} hexadecimal digits are wanted, with nothing between them")]
    NoHexadecimal(usize),
    #[error("flag 0 or flag 1 is wanted")]
    NoFlag,
}

/// Why a text gives no packets.
#[derive(Clone, Copy, Debug, PartialEq, Eq, Error)]
pub enum PacketFault {
    #[error("{0}: {1}")]
    At(Position, PacketKind),
    #[error("memory")]
    Memory,
}

impl From<AllocError> for PacketFault {
    ghost from_gives = { λ _ e. e ≡ packet.Memory };

    fn from(_: AllocError) -> Self {
        PacketFault::Memory
    }
}

impl<T: Drop> From<AllocFailed<T>> for PacketFault {
    ghost from_gives = { λ _ e. e ≡ packet.Memory };

    fn from(_: AllocFailed<T>) -> Self {
        PacketFault::Memory
    }
}

/// Why a run ends before all packets are run. What is shown of whole batches before is written.
#[derive(Clone, Copy, Debug, PartialEq, Eq, Error)]
pub enum RunFault {
    /// A member's thread could not be started.
    #[error("thread")]
    Thread,
    /// A growth was refused.
    #[error("memory")]
    Memory,
    /// The output could not be written.
    #[error("write")]
    Write,
}

impl From<AllocError> for RunFault {
    ghost from_gives = { λ _ e. e ≡ run.Memory };

    fn from(_: AllocError) -> Self {
        RunFault::Memory
    }
}

impl<T: Drop> From<AllocFailed<T>> for RunFault {
    ghost from_gives = { λ _ e. e ≡ run.Memory };

    fn from(_: AllocFailed<T>) -> Self {
        RunFault::Memory
    }
}
