//! Why an image is refused.

ghost use Rattle.std.specs.Prelude.{◌≡◌};
ghost use Rattle.tp_accept.specs.declared.refusal.Refusal.TheVariants.{Memory};
ghost use Rattle.tp_accept.specs.Refusals.{of_image, of_cutting, of_flow, of_state, code_of, place_of};

use std::alloc::{AllocError, AllocFailed};
use std::error::Error;
use std::fmt;
use tp_decode::{DecodeCode, DecodeFault};
use tp_flow::{FlowCode, FlowFault};
use tp_image::{ImageCode, ImageFault};
use tp_state::{StateCode, StateFault};

/// Why an image is refused. The judgements are made in this order.
#[derive(Clone, Copy, Debug, PartialEq, Eq)]
pub enum RefusalCode {
    /// The bytes are no image: F1 to F10.
    Image(ImageCode),
    /// The code has no cutting into instructions: D1 to D3.
    Cutting(DecodeCode),
    /// A rule of flow is broken: J1 to J7.
    Flow(FlowCode),
    /// An instruction is refused by what is known of the states before it: S1 to S11.
    State(StateCode),
    /// The bound is above [`MAX_BUDGET`](crate::limits::MAX_BUDGET).
    B1,
}

impl fmt::Display for RefusalCode {
    ghost use Rattle.std.specs.Prelude.{Some};
    ghost use Rattle.tp_accept.specs.Refusals.{refusal_code_text};

    ghost output = { λ code. Some (refusal_code_text code) };

    fn fmt<W: fmt::Write>(&self, f: &mut fmt::Formatter<W>) -> fmt::Result {
        match self {
            RefusalCode::Image(code) => write!(f, "{code}"),
            RefusalCode::Cutting(code) => write!(f, "{code}"),
            RefusalCode::Flow(code) => write!(f, "{code}"),
            RefusalCode::State(code) => write!(f, "{code}"),
            RefusalCode::B1 => f.write_str("B1"),
        }
    }
}

/// Why an image is not accepted. It prints as the code, a space and the place.
#[derive(Clone, Copy, Debug, PartialEq, Eq)]
pub enum Refusal {
    /// The first refusal. The place of an F is a byte offset in the text, that of J6 the number of the loop row, from
    /// 0, that of B1 is 0, and that of every other code an address in the image's code, in bytes.
    Refused { code: RefusalCode, place: usize },
    /// Out of memory.
    Memory,
}

impl Refusal {
    /// The code; none for Memory.
    pub fn code(&self) -> Option<RefusalCode>
        ensures { result ≡ code_of self.now }
    {
        match self {
            Refusal::Refused { code, .. } => Some(*code),
            Refusal::Memory => None,
        }
    }

    /// The place; 0 for Memory.
    pub fn place(&self) -> usize
        ensures { result ≡ place_of self.now }
    {
        match self {
            Refusal::Refused { place, .. } => *place,
            Refusal::Memory => 0,
        }
    }
}

impl fmt::Display for Refusal {
    ghost use Rattle.std.specs.Prelude.{Some};
    ghost use Rattle.tp_accept.specs.Refusals.{refusal_text};

    ghost output = { λ refusal. Some (refusal_text refusal) };

    fn fmt<W: fmt::Write>(&self, f: &mut fmt::Formatter<W>) -> fmt::Result {
        match self {
            Refusal::Refused { code, place } => write!(f, "{code} {place}"),
            Refusal::Memory => f.write_str("out of memory"),
        }
    }
}

impl Error for Refusal {}

impl From<ImageFault> for Refusal {
    ghost from_gives = { λ fault refusal. refusal ≡ of_image fault };

    fn from(fault: ImageFault) -> Refusal {
        match fault {
            ImageFault::Refused { code, place } => Refusal::Refused {
                code: RefusalCode::Image(code),
                place,
            },
            ImageFault::Memory => Refusal::Memory,
        }
    }
}

impl From<DecodeFault> for Refusal {
    ghost from_gives = { λ fault refusal. refusal ≡ of_cutting fault };

    fn from(fault: DecodeFault) -> Refusal {
        match fault {
            DecodeFault::Refused { code, place } => Refusal::Refused {
                code: RefusalCode::Cutting(code),
                place,
            },
            DecodeFault::Memory => Refusal::Memory,
        }
    }
}

impl From<FlowFault> for Refusal {
    ghost from_gives = { λ fault refusal. refusal ≡ of_flow fault };

    fn from(fault: FlowFault) -> Refusal {
        Refusal::Refused {
            code: RefusalCode::Flow(fault.code),
            place: fault.place,
        }
    }
}

impl From<StateFault> for Refusal {
    ghost from_gives = { λ fault refusal. refusal ≡ of_state fault };

    fn from(fault: StateFault) -> Refusal {
        match fault {
            StateFault::Refused { code, place } => Refusal::Refused {
                code: RefusalCode::State(code),
                place,
            },
            StateFault::Memory => Refusal::Memory,
        }
    }
}

impl From<AllocError> for Refusal {
    ghost from_gives = { λ _ refusal. refusal ≡ Memory };

    fn from(_: AllocError) -> Refusal {
        Refusal::Memory
    }
}

impl<T: Drop> From<AllocFailed<T>> for Refusal {
    ghost from_gives = { λ _ refusal. refusal ≡ Memory };

    fn from(_: AllocFailed<T>) -> Refusal {
        Refusal::Memory
    }
}
