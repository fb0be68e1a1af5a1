//! Why a program has no image.

ghost use Rattle.std.specs.Prelude.{◌≡◌};
ghost use Rattle.tpw_asm.specs.declared.fault.AssemblyFault.TheVariants.{Memory};

use std::alloc::{AllocError, AllocFailed};
use thiserror::Error;
use tp_image::ImageCode;
use tp_image::limits::{MAX_CODE_BYTES_1, MAX_CODE_BYTES_2};

/// Why a line is wrong by itself.
#[derive(Clone, Copy, Debug, PartialEq, Eq, Error)]
pub enum LineFault {
    /// More than 8 bytes are stated.
    #[error("a spelling has at most 8 bytes")]
    TooWide,
    /// A place lies behind the last one.
    #[error("its label is no place of the program")]
    NoPlace,
    /// A jump's target is not behind it, or a distance ends before it begins.
    #[error("its label lies before it; jumps go forward alone")]
    Backward,
}

/// Why a program has no image: the first of these, in this order.
#[derive(Clone, Copy, Debug, PartialEq, Eq, Error)]
pub enum AssemblyFault {
    /// This is the first line that is wrong by itself, counted from 0.
    #[error("line {0}: {1}")]
    Line(usize, LineFault),
    /// This is the first loop with a place that lies behind the last one, counted from 0.
    #[error("loop {0}: its label is no place of the program")]
    Row(usize),
    /// In every layout there are more code bytes than an image of the version has.
    #[error("the code is too long: at most {one} bytes in version 1, {two} in version 2", one = MAX_CODE_BYTES_1, two = MAX_CODE_BYTES_2)]
    TooLong,
    /// This is the first line whose spelling is longer than is stated, in the least layout.
    #[error("line {0}: its operand needs a longer spelling")]
    Narrow(usize),
    /// A field of the image is out of the format's range: the format's first refusal.
    #[error("the image is out of range: {0}")]
    Field(ImageCode),
    /// A growth was refused.
    #[error("memory")]
    Memory,
}

impl From<AllocError> for AssemblyFault {
    ghost from_gives = { λ _ e. e ≡ Memory };

    fn from(_: AllocError) -> Self {
        AssemblyFault::Memory
    }
}

impl<T: Drop> From<AllocFailed<T>> for AssemblyFault {
    ghost from_gives = { λ _ e. e ≡ Memory };

    fn from(_: AllocFailed<T>) -> Self {
        AssemblyFault::Memory
    }
}
