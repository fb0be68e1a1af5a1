//! A line of text as words.

ghost use Rattle.std.specs.Prelude.{◌≡◌, ◌≤◌, ◌<◌, ◌+◌, length, map, drop, ◌++◌, IfOk, OnOk, true, false, slice_index};
ghost use Rattle.std.specs.List.{slice_range, list_all};
ghost use Rattle.std.specs.Str.{str_eq_ignore_ascii_case};
ghost use Rattle.tpw_text.specs.Faults.{fault_at};
ghost use Rattle.tpw_text.specs.Words.{position_of, token, tokens, is_mark, is_plain, begins_comment, before_comment};
ghost use Rattle.tpw_text.specs.Words.{words_of_line, word_if_any, behind_label, statement_or_line};

use crate::fault::{SourceFault, TextFault};
use std::alloc::{AllocError, Global};
use std::fmt;

/// The place of a word in a text: lines and columns count from 1, columns in bytes.
#[derive(Clone, Copy, Debug, PartialEq, Eq)]
pub struct Position {
    pub line: usize,
    pub column: usize,
}

impl fmt::Display for Position {
    ghost use Rattle.std.specs.Prelude.{Some};
    ghost use Rattle.tpw_text.specs.Words.{position_text};

    ghost output = { λ position. Some (position_text position) };

    fn fmt<W: fmt::Write>(&self, f: &mut fmt::Formatter<W>) -> fmt::Result {
        let Position { line, column } = *self;
        write!(f, "{line}:{column}")
    }
}

/// A word of a text, and its place.
#[derive(Clone, Copy)]
pub struct Word<'a> {
    pub text: &'a [u8],
    pub line: usize,
    pub column: usize,
}

impl<'a> Word<'a> {
    /// Whether it is this word, in capitals or not.
    pub fn is(&self, name: &str) -> bool
        ensures { result ≡ str_eq_ignore_ascii_case self.now.text.now name.now }
    {
        self.text.eq_ignore_ascii_case(name.as_bytes())
    }

    /// Its place.
    pub fn position(&self) -> Position
        ensures { result ≡ position_of self.now }
    {
        Position {
            line: self.line,
            column: self.column,
        }
    }

    /// A fault at this word.
    pub fn fault(&self, fault: TextFault) -> SourceFault
        ensures { result ≡ fault_at self.now fault }
    {
        SourceFault {
            line: self.line,
            column: self.column,
            fault,
        }
    }
}

/// Whether a byte is a word by itself.
pub fn is_mark(byte: u8) -> bool
    ensures { result ≡ is_mark byte }
{
    matches!(byte, b':' | b'/')
}

/// Whether a byte is one of a word of any length.
#[tactic(auto, unfolding(crate::specs::Words::is_plain))]
fn is_plain(byte: u8) -> bool
    ensures { result ≡ is_plain byte }
{
    !byte.is_ascii_whitespace() && !is_mark(byte)
}

/// Whether a text begins with a comment.
fn begins_comment(text: &[u8]) -> bool
    ensures { result ≡ begins_comment text.now }
{
    matches!(text, [b';', ..] | [b'-', b'-', ..])
}

/// The bytes before a comment.
fn before_comment(text: &[u8]) -> &[u8]
    ensures { result.now ≡ before_comment text.now }
{
    for at in 0..text.len() {
        if begins_comment(&text[at..]) {
            return &text[..at];
        }
    }
    text
}

/// Appends the word between two places, if there is one.
fn push_word<'a>(
    words: &mut Vec<Word<'a>>,
    text: &'a [u8],
    line: usize,
    start: usize,
    end: usize,
) -> Result<(), AllocError>
    requires order { start ≤ end }
    requires within { end ≤ length text.now }
    ensures { OnOk result (map token words.new.items ≡ map token words.old.items
        ++ word_if_any line (start + 1) (slice_range text.now start end)) }
{
    if start < end {
        words.push(Word {
            text: &text[start..end],
            line,
            column: start + 1,
        })?;
    }
    Ok(())
}

/// Appends the word that ends before a byte, if there is one, and the byte, if it is a mark.
fn end_word<'a>(
    words: &mut Vec<Word<'a>>,
    text: &'a [u8],
    line: usize,
    start: usize,
    end: usize,
) -> Result<(), AllocError>
    requires order { start ≤ end }
    requires within { end < length text.now }
    requires plain { list_all is_plain (slice_range text.now start end) ≡ true }
    requires ends { is_plain (slice_index text.now end) ≡ false }
    ensures { OnOk result (map token words.old.items ++ tokens line (start + 1) (drop start text.now) ≡
        map token words.new.items ++ tokens line (end + 1 + 1) (drop (end + 1) text.now)) }
{
    push_word(words, text, line, start, end)?;
    if !is_mark(text[end]) {
        return Ok(());
    }
    push_word(words, text, line, end, end + 1)?;
    Ok(())
}

/// The words of a line.
pub fn words_of<'a>(alloc: Global, text: &'a [u8], line: usize) -> Result<Vec<Word<'a>>, AllocError>
    ensures { IfOk result (λ words. map token words.items ≡ words_of_line line text.now) }
{
    let said = before_comment(text);
    let mut words = Vec::new(alloc);
    let mut start = 0;
    for (i, byte) in said.iter().enumerate() {
        if !is_plain(*byte) {
            end_word(&mut words, said, line, start, i)?;
            start = i + 1;
        }
    }
    push_word(&mut words, said, line, start, said.len())?;
    Ok(words)
}

/// The words behind the label of bytes that have these words, or all of them where they have no label.
fn behind_label<'a>(words: &[Word<'_>], text: &'a [u8]) -> &'a [u8]
    ensures { result.now ≡ behind_label (map token words.now) text.now }
{
    match words {
        [_, mark, ..] if mark.is(":") => text.get(mark.column..).unwrap_or(&[]),
        _ => text,
    }
}

/// The statement of a line: without its label and its comment, and without white space at its ends.
pub fn statement_of<'a>(alloc: Global, line: &'a str) -> Result<&'a str, AllocError>
    ensures { IfOk result (λ statement. statement.now ≡ statement_or_line line.now) }
{
    let words = words_of(alloc, line.as_bytes(), 1)?;
    let statement = behind_label(&words, before_comment(line.as_bytes()));
    match str::from_utf8(statement.trim_ascii()) {
        Ok(statement) => Ok(statement),
        Err(_) => Ok(line),
    }
}
