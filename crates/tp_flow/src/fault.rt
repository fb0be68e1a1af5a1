//! Why the flow of a code is refused.

use std::error::Error;
use std::fmt;

/// A rule of flow that is broken. At an instruction they are tried in the order J7, J2, J3, J1, J4, J5.
#[derive(Clone, Copy, Debug, PartialEq, Eq)]
pub enum FlowCode {
    /// The target of a jump is no instruction start.
    J1,
    /// The target of a jump lies outside the code.
    J2,
    /// A jump goes back: its operand is negative.
    J3,
    /// A jump leaves a loop, or enters one at another place than its head.
    J4,
    /// Control runs off behind the last instruction.
    J5,
    /// A bad loop row.
    J6,
    /// A lend that no row names.
    J7,
}

impl fmt::Display for FlowCode {
    ghost use Rattle.std.specs.Prelude.{Some};
    ghost use Rattle.tp_flow.specs.FlowCodes.{flow_code_text};

    ghost output = { λ code. Some (flow_code_text code) };

    fn fmt<W: fmt::Write>(&self, f: &mut fmt::Formatter<W>) -> fmt::Result {
        f.write_str(match self {
            FlowCode::J1 => "J1",
            FlowCode::J2 => "J2",
            FlowCode::J3 => "J3",
            FlowCode::J4 => "J4",
            FlowCode::J5 => "J5",
            FlowCode::J6 => "J6",
            FlowCode::J7 => "J7",
        })
    }
}

/// The first fault of a code's flow.
#[derive(Clone, Copy, Debug, PartialEq, Eq)]
pub struct FlowFault {
    /// Which rule is broken.
    pub code: FlowCode,
    /// For J6 the number of the loop row, from 0; otherwise the address of the instruction, in bytes.
    pub place: usize,
}

impl fmt::Display for FlowFault {
    ghost use Rattle.std.specs.Prelude.{Some};
    ghost use Rattle.tp_flow.specs.FlowCodes.{flow_fault_text};

    ghost output = { λ fault. Some (flow_fault_text fault) };

    fn fmt<W: fmt::Write>(&self, f: &mut fmt::Formatter<W>) -> fmt::Result {
        let code = self.code;
        let place = self.place;
        write!(f, "{code} at {place}")
    }
}

impl Error for FlowFault {}
