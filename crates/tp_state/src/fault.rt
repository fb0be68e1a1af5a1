//! Why an instruction is refused.

ghost use Rattle.std.specs.Prelude.{◌≡◌};
ghost use Rattle.tp_state.specs.declared.fault.StateFault.TheVariants.{Memory};

use std::alloc::AllocError;
use std::error::Error;
use std::fmt;

/// Why an instruction is refused: in the order of the codes, but for S11, which comes first, and for in and out, whose
/// order is S1, S2, S8, S7, S9, S3, S4, S5.
#[derive(Clone, Copy, Debug, PartialEq, Eq)]
pub enum StateCode {
    /// A register that is read is undefined.
    S1,
    /// A register is of the wrong kind.
    S2,
    /// A word, a byte or a pointer is outside the workspace.
    S3,
    /// A word that is read is undefined.
    S4,
    /// A live control word is written or made undefined, or a loop is entered or ended with other values, another block
    /// or another distance than declared.
    S5,
    /// Wptr is outside 5 to the workspace's end, or differs on two edges that meet.
    S6,
    /// A message's length.
    S7,
    /// A channel.
    S8,
    /// The order of in, out and stopp; or phases that differ on two edges that meet.
    S9,
    /// A shift count that is not 0 to 31.
    S10,
    /// An operation that the image's version does not have.
    S11,
}

impl fmt::Display for StateCode {
    ghost use Rattle.std.specs.Prelude.{Some};
    ghost use Rattle.tp_state.specs.StateCodes.{state_code_text};

    ghost output = { λ code. Some (state_code_text code) };

    fn fmt<W: fmt::Write>(&self, f: &mut fmt::Formatter<W>) -> fmt::Result {
        f.write_str(match self {
            StateCode::S1 => "S1",
            StateCode::S2 => "S2",
            StateCode::S3 => "S3",
            StateCode::S4 => "S4",
            StateCode::S5 => "S5",
            StateCode::S6 => "S6",
            StateCode::S7 => "S7",
            StateCode::S8 => "S8",
            StateCode::S9 => "S9",
            StateCode::S10 => "S10",
            StateCode::S11 => "S11",
        })
    }
}

/// Why a code is refused by what is known of its states.
#[derive(Clone, Copy, Debug, PartialEq, Eq)]
pub enum StateFault {
    /// A rule is broken. The place is an address in the code, in bytes: of the instruction, or, where two edges may not
    /// meet, of their target.
    Refused { code: StateCode, place: usize },
    /// Out of memory.
    Memory,
}

impl fmt::Display for StateFault {
    ghost use Rattle.std.specs.Prelude.{Some};
    ghost use Rattle.tp_state.specs.StateCodes.{state_fault_text};

    ghost output = { λ fault. Some (state_fault_text fault) };

    fn fmt<W: fmt::Write>(&self, f: &mut fmt::Formatter<W>) -> fmt::Result {
        match self {
            StateFault::Refused { code, place } => write!(f, "{code} at {place}"),
            StateFault::Memory => f.write_str("out of memory"),
        }
    }
}

impl Error for StateFault {}

impl From<AllocError> for StateFault {
    ghost from_gives = { λ _ e. e ≡ Memory };

    fn from(_e: AllocError) -> StateFault {
        StateFault::Memory
    }
}
