//! Why a text has no program.

ghost use Rattle.std.specs.Prelude.{◌≡◌};

use std::alloc::AllocError;
use thiserror::Error;
use tp_accept::RefusalCode;
use tpw_asm::AssemblyFault;
use tpw_debug::Diagnostic;
use tpw_occam_names::Fault as ResolvingFault;
use tpw_occam_placing::Fault as PlacingFault;

/// A defect of the compiler on a text. None is known.
#[derive(Clone, Copy, Debug, PartialEq, Eq, Error)]
pub enum Defect {
    /// The tree that is made of the text is written otherwise.
    #[error("the tree that it makes of the text is written otherwise")]
    Misread,
    /// The text breaks a rule of the language's core.
    #[error("what it makes of the text is no sound worker")]
    Unsound,
    /// The program that is made has no image.
    #[error("the program that it makes has no image: {0}")]
    Program(AssemblyFault),
    /// The verifier refuses the image, and not for its budget.
    #[error("the verifier refuses its image by {code} at {place}")]
    Refused { code: RefusalCode, place: usize },
    /// A word that the program uses is not where it has to be.
    #[error("a word of the program that it makes is misplaced")]
    Misplaced,
}

/// Why a text has no program.
#[derive(Debug, Drop)]
pub enum OccamFault {
    /// The faults of the text: one diagnostic to twenty.
    Refused(Vec<Diagnostic>),
    /// A fault of the compiler.
    Compiler(Defect),
    /// A growth was refused.
    Memory,
}

impl From<ResolvingFault> for OccamFault {
    ghost use Rattle.tpw_occam.specs.Compilation.{IsOfCompiler};

    ghost from_gives = { λ _ e. IsOfCompiler e };

    fn from(fault: ResolvingFault) -> Self {
        match fault {
            ResolvingFault::Memory => OccamFault::Memory,
            ResolvingFault::Deep | ResolvingFault::Wrong => OccamFault::Compiler(Defect::Unsound),
        }
    }
}

impl From<PlacingFault> for OccamFault {
    ghost use Rattle.tpw_occam.specs.Compilation.{IsOfCompiler};

    ghost from_gives = { λ _ e. IsOfCompiler e };

    fn from(fault: PlacingFault) -> Self {
        match fault {
            PlacingFault::Memory => OccamFault::Memory,
            PlacingFault::Deep | PlacingFault::Misplaced => OccamFault::Compiler(Defect::Unsound),
        }
    }
}

impl From<AllocError> for OccamFault {
    ghost use Rattle.tpw_occam.specs.declared.fault.OccamFault.TheVariants.{Memory};

    ghost from_gives = { λ _ e. e ≡ Memory };

    fn from(_: AllocError) -> Self {
        OccamFault::Memory
    }
}
