//! Programs.

use tp_decode::Instr;
use tp_image::Version;

/// An instruction as it is, or one whose operand is a distance between places. Places lie between lines: place `n` is
/// before line `n`, counted from 0, and the last place is behind the last line.
#[derive(Clone, Copy, Debug, PartialEq, Eq)]
pub enum Operation {
    /// An instruction as it is.
    Plain(Instr),
    /// `j` to a place behind it.
    JumpTo(usize),
    /// `cj` to a place behind it.
    CjTo(usize),
    /// `ldc` of the number of bytes from one place to another that is not before it. A loop that begins at `from` has
    /// one before its `lend`, behind which is `to` (Compiler Writer's Guide, "Loops").
    Distance { from: usize, to: usize },
}

/// A line of a program.
#[derive(Clone, Copy, Debug, PartialEq, Eq)]
pub enum Line {
    /// A byte as it is.
    Byte(u8),
    /// An instruction, in its canonical spelling or in one of a stated number of bytes, 1 to 8: `pfix 0` fills it up.
    Spelled {
        operation: Operation,
        bytes: Option<u8>,
    },
}

/// Where a loop's body or its `lend` begins.
#[derive(Clone, Copy, Debug, PartialEq, Eq)]
pub enum Spot {
    /// At a place.
    Place(usize),
    /// At an address, in bytes from the code's first.
    Address(u16),
}

/// A row of the loop table.
#[derive(Clone, Copy, Debug, PartialEq, Eq)]
pub struct Loop {
    /// Where the loop's body begins.
    pub head: Spot,
    /// Where its lend begins.
    pub lend: Spot,
    /// The workspace word that keeps the loop's index. The word after it keeps the count.
    pub control: u16,
    /// How many turns the loop makes.
    pub count: u16,
    /// The index of the first turn.
    pub start: i32,
}

/// A worker as its author writes it: the fields of its image, with lines in place of the code.
#[derive(Debug, Drop)]
pub struct Program {
    pub version: Version,
    /// Workspace words.
    pub workspace: u32,
    /// The first value of Wptr, as a workspace word.
    pub start: u32,
    /// Packet words.
    pub packet: u32,
    /// Result words.
    pub result: u32,
    pub loops: Vec<Loop>,
    /// The first words of the workspace.
    pub initial: Vec<u32>,
    pub lines: Vec<Line>,
}
