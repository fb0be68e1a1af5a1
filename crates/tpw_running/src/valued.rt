//! Names of a text with the values that statements give them.

use crate::said::said_at;
use std::fmt;
use tpw_debug::Named;
use tpw_occam_core::Kind;
use tpw_occam_terms::Span;

/// The text of a worker in occam: its lines, and the names of its variables and arrays.
#[derive(Clone, Copy)]
pub struct Text<'a> {
    pub lines: &'a [&'a str],
    pub names: &'a [Named<'a>],
}

impl<'a> Text<'a> {
    /// Whether the name of an array stands at a place whose elements are bytes.
    fn has_bytes_at(self, span: Span) -> bool {
        let name = said_at(self.lines, span);
        self.names.iter().any(|named| named.name == name
            && named.line == span.line
            && named.bytes.is_some())
    }
}

/// What is declared: the place of its name, the name, and what an element is where it is an array.
#[derive(Clone, Copy)]
pub(crate) struct Known<'a> {
    pub(crate) span: Span,
    pub(crate) name: &'a str,
    pub(crate) kind: Kind,
}

impl<'a> Known<'a> {
    /// A variable by the place of its name.
    pub(crate) fn variable(text: Text<'a>, span: Span) -> Known<'a> {
        Known {
            span,
            name: said_at(text.lines, span),
            kind: Kind::Word,
        }
    }

    /// An array by the place of its name.
    pub(crate) fn array(text: Text<'a>, span: Span) -> Known<'a> {
        Known {
            span,
            name: said_at(text.lines, span),
            kind: if text.has_bytes_at(span) {
                Kind::Byte
            } else {
                Kind::Word
            },
        }
    }

    /// How many elements there are in some bytes of it.
    pub(crate) fn count(&self, bytes: usize) -> usize {
        match self.kind {
            Kind::Word => bytes / 4,
            Kind::Byte => bytes,
        }
    }

    /// An element, of an array that has these bytes.
    pub(crate) fn element(&self, bytes: &[u8], number: usize) -> Option<u32> {
        match self.kind {
            Kind::Word => {
                let first = number.saturating_mul(4);
                match bytes.get(first..first.saturating_add(4)) {
                    Some([b0, b1, b2, b3]) => Some(u32::from_le_bytes([*b0, *b1, *b2, *b3])),
                    _ => None,
                }
            }
            Kind::Byte => bytes.get(number).map(|byte| u32::from(*byte)),
        }
    }
}

/// A name, or an element by its number, with its word: ` x=3`, ` buf[2]=3 (#3)`.
#[derive(Clone, Copy)]
pub(crate) struct Valued<'a> {
    pub(crate) name: &'a str,
    pub(crate) element: Option<usize>,
    pub(crate) word: u32,
    pub(crate) hexadecimal: bool,
}

impl fmt::Display for Valued<'_> {
    fn fmt<W: fmt::Write>(&self, f: &mut fmt::Formatter<W>) -> fmt::Result {
        let Valued { name, word, .. } = *self;
        write!(f, " {name}")?;
        if let Some(element) = self.element {
            write!(f, "[{element}]")?;
        }
        let number = word.cast_signed();
        write!(f, "={number}")?;
        if self.hexadecimal {
            write!(f, " (#{word:X})")?;
        }
        Ok(())
    }
}
