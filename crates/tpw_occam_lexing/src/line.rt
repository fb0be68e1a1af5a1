//! A line of a text by itself, and how the next one goes on with it.

ghost use Rattle.std.specs.Prelude.{◌≡◌, MatchOption, IfOk, OnOk, option_map, map, slice_get};
ghost use Rattle.tpw_occam_lexing.specs.Lexemes.{lexeme_of};
ghost use Rattle.tpw_occam_lexing.specs.Lines.{written, lexemes, written_line, where_clean, goes_on, is_between, is_comment, joining, with_rest};
ghost use Rattle.tpw_occam_lexing.specs.Lines as lines;
ghost use Rattle.tpw_occam_lexing.specs.Reading.{onward, IsCut};

use crate::bytes::{Class, run};
use crate::lexeme::lexeme;
use crate::recovery::recovered;
use crate::symbol::Symbol;
use crate::token::{Item, Token};
use std::alloc::{AllocError, Global};
use tpw_occam_terms::{Fault, FaultKind, MAX_FAULTS, Span};

/// A line, with those that it goes on over.
#[derive(Drop)]
pub struct Line<'a> {
    /// How many spaces stand in front of it.
    pub indent: usize,
    pub items: Vec<Item<'a>>,
    /// The faults of the line.
    pub faults: Vec<Fault>,
    /// Whether what was read last is no token.
    pub ends_wrong: bool,
    /// Whether it may belong to a line above it that has a fault, so that nothing is told of it.
    pub is_doubtful: bool,
    /// The place behind what was read.
    pub end: Span,
}

/// The front of a line, or of what is left of it.
#[derive(Clone, Copy)]
pub(crate) enum Next<'a> {
    /// Nothing, or a comment.
    End,
    Space,
    Lexeme(Token<'a>, usize),
    /// No token.
    Nothing,
}

/// Whether bytes begin with a comment.
fn is_comment(bytes: &[u8]) -> bool
    ensures { result ≡ is_comment bytes.now }
{
    match bytes {
        [first, second, ..] => *first == b'-' && *second == b'-',
        _ => false,
    }
}

/// The front of a text.
pub(crate) fn front_of(rest: &str) -> Next<'_>
    ensures whole { lexemes 0 rest.now ≡ onward result rest.now }
    ensures cut { IsCut result rest.now }
{
    let bytes = rest.as_bytes();
    let Some(first) = bytes.first() else {
        return Next::End;
    };
    if is_comment(bytes) {
        return Next::End;
    }
    if *first == b' ' {
        return Next::Space;
    }
    match lexeme(rest) {
        Some((token, width)) if width > 0 => Next::Lexeme(token, width),
        _ => Next::Nothing,
    }
}

/// The tokens of a line; none where a place of it has none.
fn tokens_of<'a>(
    alloc: Global,
    text: &'a str,
    number: usize,
) -> Result<Option<Vec<Item<'a>>>, AllocError>
    ensures { IfOk result (λ r. MatchOption r (lexemes 0 text.now ≡ None)
        (λ v. lexemes 0 text.now ≡ Some (map (λ item. lexeme_of item.token) v.items))) }
{
    let mut items = Vec::new(alloc);
    let mut rest = text;
    'items: loop {
        let width = match front_of(rest) {
            Next::End => return Ok(Some(items)),
            Next::Nothing => return Ok(None),
            Next::Space => 1,
            Next::Lexeme(token, width) => {
                let column = text.len().saturating_sub(rest.len()).saturating_add(1);
                items.push(Item {
                    token,
                    span: Span {
                        line: number,
                        column,
                        width,
                    },
                })?;
                width
            }
        };
        let (_, more) = rest.split_at(width);
        rest = more;
    }
}

/// The place behind tokens, or one in their line where there are none.
fn end_of(items: &[Item<'_>], line: usize, column: usize) -> Span {
    match items.last() {
        Some(item) => item.span.end(),
        None => Span {
            line,
            column,
            width: 0,
        },
    }
}

/// Reads a line of a text; and whether all of it is tokens.
#[tactic(auto, unfolding(crate::specs::Lines::written_line))]
pub(crate) fn read_line<'a>(
    alloc: Global,
    text: &'a str,
    number: usize,
) -> Result<(Line<'a>, bool), AllocError>
    ensures { IfOk result (λ r. written_line text.now ≡ where_clean r.1 (written r.0)) }
{
    let indent = run(text.as_bytes(), Class::Space);
    match tokens_of(alloc, text, number)? {
        Some(items) => {
            let end = end_of(&items, number, indent.saturating_add(1));
            let line = Line {
                indent,
                items,
                faults: Vec::new(alloc),
                ends_wrong: false,
                is_doubtful: false,
                end,
            };
            Ok((line, true))
        }
        None => Ok((recovered(alloc, text, indent, number)?, false)),
    }
}

/// How a line belongs to the one above it.
#[derive(Clone, Copy)]
pub(crate) enum Joining {
    /// It goes on with that.
    Behind,
    /// It is to go on with that, and is indented less.
    Shallow,
    Apart,
    /// It begins with what stands between operands, and the line above does not go on.
    Early,
}

fn is_open(token: Option<Token<'_>>) -> bool
    ensures { result ≡ lines.is_open (option_map lexeme_of token.entry) }
{
    match token {
        Some(Token::Symbol(symbol)) => symbol.is_open(),
        Some(Token::Keyword(keyword)) => keyword.is_open(),
        _ => false,
    }
}

fn is_between(token: Option<Token<'_>>) -> bool
    ensures { result ≡ is_between (option_map lexeme_of token.entry) }
{
    match token {
        Some(Token::Symbol(symbol)) => symbol.is_between(),
        Some(Token::Keyword(keyword)) => keyword.is_between(),
        _ => false,
    }
}

/// How a line belongs to the one above, which goes on or does not.
pub(crate) fn joining_of(
    goes_on: bool,
    above: usize,
    indent: usize,
    begins_between: bool,
) -> Joining
    ensures { result ≡ joining goes_on above indent begins_between }
{
    if goes_on {
        if above <= indent {
            Joining::Behind
        } else {
            Joining::Shallow
        }
    } else if above < indent && begins_between {
        Joining::Early
    } else {
        Joining::Apart
    }
}

impl<'a> Line<'a> {
    /// Whether its last token lets it go on.
    pub(crate) fn is_open(&self) -> bool
        ensures { result ≡ goes_on (written self.now) }
    {
        let last = match self.items.last() {
            Some(item) => Some(item.token),
            None => None,
        };
        is_open(last)
    }

    /// Whether it begins with what stands between operands.
    pub(crate) fn begins_between(&self) -> bool
        ensures { result ≡ is_between (slice_get (written self.now).lexemes 0) }
    {
        let first = match self.items.first() {
            Some(item) => Some(item.token),
            None => None,
        };
        is_between(first)
    }

    /// Whether its first token stands behind nothing but spaces.
    pub(crate) fn begins_at_once(&self) -> bool {
        match self.items.first() {
            Some(item) => item.span.column == self.indent.saturating_add(1),
            None => false,
        }
    }

    /// The line that goes on with another.
    pub(crate) fn with(self, line: Line<'a>) -> Result<Line<'a>, AllocError>
        ensures { IfOk result (λ whole. written whole ≡ with_rest (written self.entry) (written line.entry)) }
    {
        let Line {
            indent,
            mut items,
            mut faults,
            is_doubtful,
            ..
        } = self;
        items.extend_from_slice(&line.items)?;
        faults.extend_from_slice(&line.faults)?;
        faults.truncate(MAX_FAULTS);
        Ok(Line {
            indent,
            items,
            faults,
            ends_wrong: line.ends_wrong,
            is_doubtful,
            end: line.end,
        })
    }

    /// Records what is wrong with it.
    pub(crate) fn put_fault(&mut self, kind: FaultKind, span: Span) -> Result<(), AllocError>
        ensures { OnOk result (written self.new ≡ written self.old) }
    {
        if self.faults.len() < MAX_FAULTS {
            self.faults.push(Fault { span, kind })?;
        }
        Ok(())
    }

    /// Whether it begins with a keyword or ends with a colon, as no rest of another line does.
    pub(crate) fn is_by_itself(&self) -> bool {
        let first = self.items.first().map(|item| item.token);
        let last = self.items.last().map(|item| item.token);
        matches!(first, Some(Token::Keyword(_)))
            || matches!(last, Some(Token::Symbol(Symbol::Colon)))
    }
}
