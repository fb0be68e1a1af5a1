//! Why bytes are no image.

ghost use Rattle.std.specs.Prelude.{◌≡◌};
ghost use Rattle.tp_image.specs.declared.fault.ImageFault.TheVariants.{Memory};

use std::alloc::{AllocError, AllocFailed};
use std::error::Error;
use std::fmt;

/// A test that bytes fail. The tests are made in this order: F1, F2 of the header, F3 to F8, F10, F2
/// of what follows the header, F9.
#[derive(Clone, Copy, Debug, PartialEq, Eq)]
pub enum ImageCode {
    /// The first four bytes are missing or spell no version.
    F1,
    /// The header, the loop rows, the initial words or the code are cut short.
    F2,
    /// The number of code bytes is out of range.
    F3,
    /// The number of workspace words is out of range.
    F4,
    /// The start word is out of range.
    F5,
    /// The number of packet words is out of range.
    F6,
    /// The number of result words is out of range.
    F7,
    /// There are too many loop rows.
    F8,
    /// Bytes are left over.
    F9,
    /// There are more initial words than workspace words.
    F10,
}

impl fmt::Display for ImageCode {
    ghost use Rattle.std.specs.Prelude.{Some};
    ghost use Rattle.tp_image.specs.Codes.{code_text};

    ghost output = { λ code. Some (code_text code) };

    fn fmt<W: fmt::Write>(&self, f: &mut fmt::Formatter<W>) -> fmt::Result {
        f.write_str(match self {
            ImageCode::F1 => "F1",
            ImageCode::F2 => "F2",
            ImageCode::F3 => "F3",
            ImageCode::F4 => "F4",
            ImageCode::F5 => "F5",
            ImageCode::F6 => "F6",
            ImageCode::F7 => "F7",
            ImageCode::F8 => "F8",
            ImageCode::F9 => "F9",
            ImageCode::F10 => "F10",
        })
    }
}

/// Why there is no image.
#[derive(Clone, Copy, Debug, PartialEq, Eq)]
pub enum ImageFault {
    /// The bytes are no image. The code is the first test that they fail, and the place is a byte
    /// offset in them.
    Refused { code: ImageCode, place: usize },
    /// Out of memory.
    Memory,
}

impl fmt::Display for ImageFault {
    ghost use Rattle.std.specs.Prelude.{Some};
    ghost use Rattle.tp_image.specs.Codes.{fault_text};

    ghost output = { λ fault. Some (fault_text fault) };

    fn fmt<W: fmt::Write>(&self, f: &mut fmt::Formatter<W>) -> fmt::Result {
        match self {
            ImageFault::Refused { code, place } => write!(f, "{code} at byte {place}"),
            ImageFault::Memory => f.write_str("out of memory"),
        }
    }
}

impl Error for ImageFault {}

impl From<AllocError> for ImageFault {
    ghost from_gives = { λ _ e. e ≡ Memory };

    fn from(_e: AllocError) -> ImageFault {
        ImageFault::Memory
    }
}

impl<T: Drop> From<AllocFailed<T>> for ImageFault {
    ghost from_gives = { λ _ e. e ≡ Memory };

    fn from(_e: AllocFailed<T>) -> ImageFault {
        ImageFault::Memory
    }
}
