//! The faults of a text.

ghost use Rattle.std.specs.Prelude.{◌≡◌};
ghost use Rattle.tpw_text.specs.Faults.{out_of_memory};

use std::alloc::{AllocError, AllocFailed};
use thiserror::Error;

/// A fault at a place of a text.
#[derive(Clone, Copy, Debug, PartialEq, Eq, Error)]
pub enum TextFault {
    #[error("unknown instruction")]
    Unknown,
    #[error("an operand is missing behind it")]
    Missing,
    #[error("something stands behind the end of the statement")]
    Extra,
    #[error("a number is wanted: decimal, #2A or 0x2A, of 32 bits")]
    NoNumber,
    #[error("the number is out of range here")]
    OutOfRange,
    #[error("this word is not expected here")]
    Unexpected,
    #[error("a label of this name stands above")]
    Twice,
    #[error("it is said once")]
    Settled,
    #[error("a name is wanted here: no mark, and not as a number begins")]
    NoName,
    #[error("initial words rise: those above reach beyond this word")]
    InitialBelow,
    #[error("no label has this name")]
    NoLabel,
    #[error("a worker has at most 16 loops")]
    TooManyLoops,
    #[error("a spelling has 1 to 8 bytes")]
    NoLength,
    #[error("the text has more lines, labels or words than a worker can have")]
    TooMany,
    #[error("memory")]
    Memory,
}

/// A fault of a text, and where: lines and columns count from 1, columns in bytes.
#[derive(Clone, Copy, Debug, PartialEq, Eq, Error)]
#[error("{line}:{column}: {fault}")]
pub struct SourceFault {
    pub line: usize,
    pub column: usize,
    pub fault: TextFault,
}

impl From<AllocError> for SourceFault {
    ghost from_gives = { λ _ e. e ≡ out_of_memory };

    fn from(_: AllocError) -> Self {
        SourceFault {
            line: 0,
            column: 0,
            fault: TextFault::Memory,
        }
    }
}

impl<T: Drop> From<AllocFailed<T>> for SourceFault {
    ghost from_gives = { λ _ e. e ≡ out_of_memory };

    fn from(_: AllocFailed<T>) -> Self {
        SourceFault {
            line: 0,
            column: 0,
            fault: TextFault::Memory,
        }
    }
}
