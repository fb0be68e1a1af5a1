//! Places that lie in a text.

ghost use Rattle.std.specs.Prelude.{◌≡◌, ℕ, ◌+◌, ◌<◌, ◌≤◌, ◌^◌, length, All, IfOk, vec_len};
ghost use Rattle.tpw_occam_terms.specs.Places.{
  line_behind,
  column_behind,
  IsReached,
  LiesIn,
  IsInOrder,
  AreInOrder,
};

use crate::fault::{Fault, MAX_FAULTS};
use crate::span::Span;
use std::alloc::{AllocError, Global};

/// The line behind a byte of a line.
fn next_line(line: usize, byte: u8) -> usize
    requires { line + 1 < 2 ^ 64 }
    ensures { result ≡ line_behind line byte }
{
    if byte == b'\n' { line + 1 } else { line }
}

/// The column behind a byte at a column.
fn next_column(column: usize, byte: u8) -> usize
    requires { column + 1 < 2 ^ 64 }
    ensures { result ≡ column_behind column byte }
{
    if byte == b'\n' { 1 } else { column + 1 }
}

/// A place of a text, and how many bytes stand in front of it.
#[derive(Clone, Copy)]
struct Reached {
    bytes: usize,
    line: usize,
    column: usize,
    ghost small_line: { line ≤ bytes + 1 },
    ghost small_column: { column ≤ bytes + 1 },
}

/// The first place of a text.
fn first() -> Reached
    ensures bytes { result.bytes ≡ 0 }
    ensures line { result.line ≡ 1 }
    ensures column { result.column ≡ 1 }
{
    Reached {
        bytes: 0,
        line: 1,
        column: 1,
    }
}

/// The first place of a text, from one on, that is not in front of a span's; in the span's line, at most that line's
/// end.
fn reach(text: &[u8], from: Reached, span: Span) -> Reached
    requires { IsReached text.now from.bytes from.line from.column }
    ensures reached { IsReached text.now result.bytes result.line result.column }
    ensures behind { IsInOrder from.line from.column result.line result.column }
    ensures kept { (bytes : ℕ) → from.bytes ≤ bytes → IsReached text.now bytes span.line span.column
        → result.bytes ≡ bytes }
{
    let mut line = from.line;
    let mut column = from.column;
    for at in from.bytes..text.len() {
        let byte = text[at];
        let is_in_line = column < span.column && byte != b'\n';
        if line > span.line || (line == span.line && !is_in_line) {
            return Reached {
                bytes: at,
                line,
                column,
            };
        }
        line = next_line(line, byte);
        column = next_column(column, byte);
    }
    Reached {
        bytes: text.len(),
        line,
        column,
    }
}

/// How many bytes of one line stand from a place on, at most this many.
fn width_at(text: &[u8], from: Reached, most: usize) -> usize
    requires { IsReached text.now from.bytes from.line from.column }
    ensures reached { IsReached text.now (from.bytes + result) from.line (from.column + result) }
    ensures kept { IsReached text.now (from.bytes + most) from.line (from.column + most) → result ≡ most }
{
    for at in from.bytes..text.len() {
        let width = at - from.bytes;
        if width == most || text[at] == b'\n' {
            return width;
        }
    }
    text.len() - from.bytes
}

/// This many bytes from a place on, or those up to its line's end.
fn stretch(text: &[u8], from: Reached, most: usize) -> Span
    requires { IsReached text.now from.bytes from.line from.column }
    ensures placed { LiesIn text.now result }
    ensures line { result.line ≡ from.line }
    ensures column { result.column ≡ from.column }
    ensures kept { IsReached text.now (from.bytes + most) from.line (from.column + most) → result.width ≡ most }
{
    Span {
        line: from.line,
        column: from.column,
        width: width_at(text, from, most),
    }
}

/// A stretch of a text: the one given. Where it goes beyond its line's end it is cut off there; where it begins beyond
/// that, or beyond the text, it is the end itself, with no width. Takes time as long as the text in front of it.
pub fn placed(text: &str, span: Span) -> Span
    ensures placed { LiesIn text.now result }
    ensures kept { LiesIn text.now span → result ≡ span }
{
    let bytes = text.as_bytes();
    let from = reach(bytes, first(), span);
    stretch(bytes, from, span.width)
}

/// Faults that are in the order of their places, at most [`MAX_FAULTS`], at these places in a text.
pub fn placed_faults(alloc: Global, text: &str, faults: &[Fault]) -> Result<Vec<Fault>, AllocError>
    ensures few { IfOk result (λ v. vec_len v ≤ 20) }
    ensures placed { IfOk result (λ v. All (λ f. LiesIn text.now f.span) v.items) }
    ensures ordered { IfOk result (λ v. AreInOrder v.items) }
{
    let bytes = text.as_bytes();
    let mut all = Vec::new(alloc);
    let mut from = first();
    for fault in faults {
        if all.len() >= MAX_FAULTS {
            break;
        }
        from = reach(bytes, from, fault.span);
        all.push(Fault {
            span: stretch(bytes, from, fault.span.width),
            kind: fault.kind,
        })?;
    }
    Ok(all)
}
