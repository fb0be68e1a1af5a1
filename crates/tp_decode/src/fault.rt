//! Why a code was not decoded.

ghost use Rattle.std.specs.Prelude.{◌≡◌};
ghost use Rattle.tp_decode.specs.declared.fault.DecodeFault.TheVariants.{Memory};

use std::alloc::{AllocError, AllocFailed};
use std::error::Error;
use std::fmt;

/// Why no instruction can be cut at an address.
#[derive(Clone, Copy, Debug, PartialEq, Eq)]
pub enum DecodeCode {
    /// The code ends after 1 to 7 prefixes.
    D1,
    /// Eight prefixes are there.
    D2,
    /// A function or an operation that is not in the table.
    D3,
}

impl fmt::Display for DecodeCode {
    ghost use Rattle.std.specs.Prelude.{Some};
    ghost use Rattle.tp_decode.specs.Codes.{decode_code_text};

    ghost output = { λ code. Some (decode_code_text code) };

    fn fmt<W: fmt::Write>(&self, f: &mut fmt::Formatter<W>) -> fmt::Result {
        f.write_str(match self {
            DecodeCode::D1 => "D1",
            DecodeCode::D2 => "D2",
            DecodeCode::D3 => "D3",
        })
    }
}

/// Why a code was not decoded.
#[derive(Clone, Copy, Debug, PartialEq, Eq)]
pub enum DecodeFault {
    /// It has no cutting. The place is the address of the first byte of the spelling, and the lowest such address.
    Refused { code: DecodeCode, place: usize },
    /// Out of memory.
    Memory,
}

impl fmt::Display for DecodeFault {
    ghost use Rattle.std.specs.Prelude.{Some};
    ghost use Rattle.tp_decode.specs.Codes.{decode_fault_text};

    ghost output = { λ fault. Some (decode_fault_text fault) };

    fn fmt<W: fmt::Write>(&self, f: &mut fmt::Formatter<W>) -> fmt::Result {
        match self {
            DecodeFault::Refused { code, place } => write!(f, "{code} at byte {place}"),
            DecodeFault::Memory => f.write_str("out of memory"),
        }
    }
}

impl Error for DecodeFault {}

impl From<AllocError> for DecodeFault {
    ghost from_gives = { λ _ e. e ≡ Memory };

    fn from(_: AllocError) -> Self {
        DecodeFault::Memory
    }
}

impl<T: Drop> From<AllocFailed<T>> for DecodeFault {
    ghost from_gives = { λ _ e. e ≡ Memory };

    fn from(_: AllocFailed<T>) -> Self {
        DecodeFault::Memory
    }
}
