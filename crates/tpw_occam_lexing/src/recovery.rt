//! Recovery: the faults of a line, and the tokens that it has all the same.

use crate::bytes::{Class, is_letter, run};
use crate::line::{Line, Next, front_of};
use crate::symbol::at_front;
use crate::token::Item;
use std::alloc::{AllocError, Global};
use tpw_occam_terms::{FaultKind, Span, quoted};

/// A fault at the front of a text: which bytes are shown, and how many are passed over.
#[derive(Clone, Copy)]
struct Bad {
    kind: FaultKind,
    from: usize,
    width: usize,
    bytes: usize,
}

impl Bad {
    /// All bytes that are passed over are wrong.
    fn whole(kind: FaultKind, bytes: usize) -> Bad {
        Bad {
            kind,
            from: 0,
            width: bytes,
            bytes,
        }
    }
}

/// A text without its first bytes.
fn behind(text: &str, bytes: usize) -> &str {
    text.get(bytes..).unwrap_or("")
}

fn run_of(text: &str, class: Class) -> usize {
    run(text.as_bytes(), class)
}

/// The fault of what is within the quotes of a character.
fn bad_kind(within: &str) -> FaultKind {
    if run_of(within, Class::Wide) > 0 {
        return FaultKind::NotAscii;
    }
    if within.starts_with("*") && quoted(within).is_none() {
        return FaultKind::BadEscape;
    }
    FaultKind::BadCharacter
}

/// A character that is none: it goes to the next quote, or else to the end of the line.
fn bad_character(rest: &str) -> Bad {
    if rest.starts_with("'''") {
        return Bad::whole(FaultKind::BadCharacter, 3);
    }
    let within = behind(rest, 1);
    let kind = bad_kind(within);
    match within.as_bytes().iter().position(|byte| *byte == b'\'') {
        Some(at) => Bad::whole(kind, at.saturating_add(2)),
        None => Bad::whole(kind, rest.len()),
    }
}

/// The fault at a place within a text, where [`quoted`] finds nothing.
fn bad_byte(left: &str, at: usize) -> Bad {
    match run_of(left, Class::Wide) {
        0 => Bad {
            kind: FaultKind::BadEscape,
            from: at.saturating_add(1),
            width: left.len().min(2),
            bytes: 1,
        },
        wide => Bad {
            kind: FaultKind::NotAscii,
            from: at.saturating_add(1),
            width: wide,
            bytes: wide,
        },
    }
}

/// A text that is none: what is wrong first, up to the quote that ends it; or it has no such quote.
fn bad_text(rest: &str) -> Bad {
    let within = behind(rest, 1);
    let mut at = 0usize;
    let mut bad: Option<Bad> = None;
    for _ in 0..=within.len() {
        let left = behind(within, at);
        if left.is_empty() || left.starts_with("\"") {
            break;
        }
        match quoted(left) {
            Some((_, bytes)) => at = at.saturating_add(bytes),
            None => {
                let here = bad_byte(left, at);
                at = at.saturating_add(here.bytes);
                bad = bad.or(Some(here));
            }
        }
    }
    match bad {
        Some(bad) if behind(within, at).starts_with("\"") => Bad {
            bytes: at.saturating_add(2),
            ..bad
        },
        _ => Bad::whole(FaultKind::OpenText, rest.len()),
    }
}

/// Whether a byte is a space, or a token may begin with it.
fn may_begin(byte: u8) -> bool {
    is_letter(byte)
        || byte.is_ascii_digit()
        || matches!(byte, b' ' | b'\t' | b'#' | b'\'' | b'"')
        || at_front(&[byte]).is_some()
}

/// How many bytes at the front are those that no token begins with.
fn foreign(bytes: &[u8]) -> usize {
    bytes
        .iter()
        .position(|byte| may_begin(*byte))
        .unwrap_or(bytes.len())
}

/// The fault where there is no token.
fn bad_at(rest: &str) -> Bad {
    let bytes = rest.as_bytes();
    match bytes.first() {
        Some(b'#') => Bad::whole(
            FaultKind::BadHexadecimal,
            run_of(behind(rest, 1), Class::Hexadecimal).saturating_add(1),
        ),
        Some(b'\'') => bad_character(rest),
        Some(b'"') => bad_text(rest),
        Some(b'\t') => Bad::whole(FaultKind::Tab, run(bytes, Class::Tab)),
        Some(byte) if byte.is_ascii_digit() => {
            Bad::whole(FaultKind::BigNumber, run(bytes, Class::Digit))
        }
        _ => Bad::whole(FaultKind::NoToken, foreign(bytes).max(1)),
    }
}

/// Passes over what is no token. Returns how many bytes that is.
fn pass<'a>(line: &mut Line<'a>, rest: &'a str, place: Span) -> Result<usize, AllocError> {
    let bad = bad_at(rest);
    let shown = Span {
        column: place.column.saturating_add(bad.from),
        width: bad.width,
        ..place
    };
    line.put_fault(bad.kind, shown)?;
    line.ends_wrong = true;
    line.end = Span {
        width: bad.bytes,
        ..place
    }
    .end();
    Ok(bad.bytes)
}

/// Reads what stands at a place: a token, or what is none. Returns how many bytes it has; none at the end.
fn step<'a>(line: &mut Line<'a>, rest: &'a str, place: Span) -> Result<usize, AllocError> {
    match front_of(rest) {
        Next::End => Ok(0),
        Next::Space => Ok(1),
        Next::Nothing => pass(line, rest, place),
        Next::Lexeme(token, width) => {
            let span = Span { width, ..place };
            line.ends_wrong = false;
            line.end = span.end();
            line.items.push(Item { token, span })?;
            Ok(width)
        }
    }
}

/// A line of which a place has no token.
pub(crate) fn recovered<'a>(
    alloc: Global,
    text: &'a str,
    indent: usize,
    number: usize,
) -> Result<Line<'a>, AllocError> {
    let mut line = Line {
        indent,
        items: Vec::new(alloc),
        faults: Vec::new(alloc),
        ends_wrong: false,
        is_doubtful: false,
        end: Span {
            line: number,
            column: indent.saturating_add(1),
            width: 0,
        },
    };
    let mut at = 0usize;
    for _ in 0..text.len() {
        let place = Span {
            line: number,
            column: at.saturating_add(1),
            width: 1,
        };
        match step(&mut line, behind(text, at), place)? {
            0 => break,
            bytes => at = at.saturating_add(bytes),
        }
    }
    Ok(line)
}
