//! Statements by their words alone.

use crate::draft::{DraftLine, Row};
use crate::words::Word;
use tp_image::Version;

/// A line, and the word of the text that asks for it.
#[derive(Clone, Copy)]
pub struct NewLine<'a> {
    pub word: Word<'a>,
    pub line: DraftLine<'a>,
}

/// A statement. A word is kept where the statement may still be refused at it.
#[derive(Clone, Copy)]
pub enum Statement<'a> {
    Nothing,
    /// A field of the image: the word that begins the statement, and its value.
    Packet(Word<'a>, u16),
    Results(Word<'a>, u16),
    Start(Word<'a>, u16),
    Workspace(Word<'a>, u16),
    Version(Word<'a>, Version),
    /// The value of an initial word: the word of the text that has its number, and that number.
    Initial(Word<'a>, u16, u32),
    Line(NewLine<'a>),
    /// A loop row: the word that begins the statement.
    Row(Word<'a>, Row<'a>),
}
