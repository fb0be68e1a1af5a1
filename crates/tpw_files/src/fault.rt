//! Faults of inputs.

ghost use Rattle.std.specs.Prelude.{◌≡◌, ◌≤◌, ◌<◌, ◌^◌, length};
ghost use Rattle.tpw_files.specs.Positions.{behind, position_behind};

use std::io;
use thiserror::Error;
use tp_image::ImageFault;
use tpw_asm::{AssemblyFault, LineFault};
use tpw_text::{Position, SourceFault};

/// Why an input is none that a command takes. The text goes behind the input's name: where a place is known it begins
/// with `:LINE:COLUMN`.
#[derive(Debug, Drop, Error)]
pub enum InputFault {
    /// It could not be opened or read.
    #[error(": {0}")]
    Unread(io::Error),
    /// It is empty, where a worker is wanted.
    #[error(": it is empty: a worker is wanted")]
    Empty,
    /// It begins with a byte order mark, where a text is wanted.
    #[error(":1:1: it begins with a byte order mark, U+FEFF: save it without one")]
    ByteOrderMark,
    /// Its lines end with carriage returns alone.
    #[error(": its lines end with carriage returns alone: a line feed ends a line")]
    CarriageReturns,
    /// It is too long, and is not read any further.
    #[error(": it is longer than 16 MB")]
    TooLong,
    /// Here is no hexadecimal digit.
    #[error(":{0}: no hexadecimal digit")]
    NotADigit(Position),
    /// Its digits end here with half a byte.
    #[error(":{0}: the second digit of a byte is missing")]
    HalfAByte(Position),
    /// Its bytes are no image.
    #[error(": no image: {0}")]
    Image(ImageFault),
    /// Here is a byte that is not UTF-8.
    #[error(":{0}: no UTF-8")]
    NotUtf8(Position),
    /// It says no program.
    #[error(":{0}")]
    Source(SourceFault),
    /// A line is wrong by itself.
    #[error(":{0}: {1}")]
    Line(Position, LineFault),
    /// A line is longer than it states.
    #[error(":{0}: its operand needs a longer spelling")]
    Narrow(Position),
    /// The statement here says a field of the image out of its range.
    #[error(":{0}: {1}")]
    Field(Position, &'static str),
    /// It says a program that has no image.
    #[error(": {0}")]
    Assembly(AssemblyFault),
    /// The compiler of occam does wrong with it.
    #[error(": a fault of the compiler: {0}; please report it, with the text")]
    Compiler(String),
}

/// The place of the byte behind one.
fn behind(position: Position, byte: u8) -> Position
    requires line { position.line < 2 ^ 63 }
    requires column { position.column < 2 ^ 63 }
    ensures { result ≡ behind position byte }
{
    let Position { line, column } = position;
    if byte == b'\n' {
        Position {
            line: line + 1,
            column: 1,
        }
    } else {
        Position {
            line,
            column: column + 1,
        }
    }
}

/// The place of the byte behind the first `bytes` of a text.
pub fn position_behind(text: &[u8], bytes: usize) -> Position
    requires { bytes ≤ length text.now }
    ensures { result ≡ position_behind text.now bytes }
{
    let mut position = Position { line: 1, column: 1 };
    let before = &text[..bytes];
    for byte in before {
        position = behind(position, *byte);
    }
    position
}
