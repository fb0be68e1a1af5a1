//! Why a worker has no program.

ghost use Rattle.std.specs.Prelude.{◌≡◌};

use std::alloc::{AllocError, AllocFailed};
use thiserror::Error;
use tpw_asm::AssemblyFault;

/// Why a worker has no program, with the line of its text.
#[derive(Clone, Copy, Debug, PartialEq, Eq, Error)]
pub enum CodeFault {
    /// More loops of more than one turn than an image has rows for.
    #[error("more than 16 replicated SEQs of more than one turn")]
    Loops { line: u32 },
    /// A loop that lies within four others.
    #[error("more than four replicated SEQs within one another")]
    Depth { line: u32 },
    /// More words than a workspace has, from this line on; and how many there would be in all, where that is known.
    #[error("more than 512 workspace words, from this line on")]
    Workspace { line: u32, words: Option<u32> },
    /// More code bytes than an image has, from this line on.
    #[error("more than 8,192 code bytes, from this line on")]
    Code { line: u32 },
    /// The program that was made has no image: a fault of the compiler.
    #[error("a fault of the compiler: {0}")]
    Assembly(AssemblyFault),
    /// A word that a line uses, or that the workspace begins with, or code that was made apart, is not where it has to
    /// be, or a loop's turns are none: a fault of the compiler.
    #[error("a fault of the compiler: a word is misplaced")]
    Misplaced,
    /// A growth was refused.
    #[error("memory")]
    Memory,
}

impl From<AllocError> for CodeFault {
    ghost use Rattle.tpw_occam_symbolic.specs.declared.fault.CodeFault.TheVariants.{Memory};

    ghost from_gives = { λ _ e. e ≡ Memory };

    fn from(_: AllocError) -> Self {
        CodeFault::Memory
    }
}

impl<T: Drop> From<AllocFailed<T>> for CodeFault {
    ghost use Rattle.tpw_occam_symbolic.specs.declared.fault.CodeFault.TheVariants.{Memory};

    ghost from_gives = { λ _ e. e ≡ Memory };

    fn from(_: AllocFailed<T>) -> Self {
        CodeFault::Memory
    }
}
