//! Operands and their spellings.
//!
//! An instruction byte of the transputer carries four bits of data. Longer operands are built up in the operand
//! register, Oreg, by the prefix functions pfix and nfix before the byte that uses them (Inmos, "Transputer
//! Instruction Set: A Compiler Writer's Guide", 1988, "Prefixing").
#![tactic(auto)]

pub mod encoding;
pub mod laws;
pub mod reading;
mod register;
pub mod spelled;

pub use encoding::encode;
pub use reading::read_one;
pub use register::{shifted, shifted_complement};
pub use spelled::{PrefixFault, Spelled};

/// The function pfix, in the high four bits of a byte.
pub const PFIX: u8 = 2;

/// The function nfix.
pub const NFIX: u8 = 6;

/// The most bytes of a spelling.
pub const MAX_SPELLING: usize = 8;
