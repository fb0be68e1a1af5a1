//! Listing lines.

ghost use Rattle.std.specs.Prelude.{◌≡◌, Some, IfOk, string_bytes};
ghost use Rattle.tp_decode.specs.Lines.{line, plain_line, instruction_text};
ghost use Rattle.tp_decode.specs.Listings.{cut_of};

use crate::instr::{Instr, OPR};
use crate::piece::Piece;
use std::alloc::{AllocError, Global};
use std::fmt;

impl fmt::Display for Instr {
    ghost output = { λ i. Some (instruction_text i) };

    fn fmt<W: fmt::Write>(&self, f: &mut fmt::Formatter<W>) -> fmt::Result {
        let name = self.name();
        let operand = self.operand();
        if self.function() == OPR {
            write!(f, "{name}")
        } else {
            write!(f, "{name} {operand}")
        }
    }
}

/// The line of the instruction at an address.
pub(crate) fn line(alloc: Global, at: u32, piece: &Piece) -> Result<String, AllocError>
    ensures { IfOk result (λ text. string_bytes text ≡ line at (cut_of piece.now)) }
{
    let mut text = plain_line(alloc, at, piece)?;
    let least = piece.instr.spelling();
    if least.as_slice() != piece.spelling.as_slice() {
        text.push_str(" least ")?;
        text.push_str(hex::encode(alloc, least.as_slice())?.as_str())?;
    }
    Ok(text)
}

/// The line of an instruction without a note on its canonical spelling.
fn plain_line(alloc: Global, at: u32, piece: &Piece) -> Result<String, AllocError>
    ensures { IfOk result (λ text. string_bytes text ≡ plain_line at (cut_of piece.now)) }
{
    let spelling = hex::encode(alloc, piece.spelling.as_slice())?;
    let instr = piece.instr;
    format!(in alloc; "{at} {spelling} {instr}")
}
