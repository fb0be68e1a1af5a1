//! The lexeme at the front of a text: the longest that its bytes allow.

ghost use Rattle.std.specs.Prelude.{◌≡◌, ◌<◌, option_map, IfSome, IsTrue, is_some, length, drop, take, slice_index};
ghost use Rattle.std.specs.Str.{IsCharBoundary};
ghost use Rattle.tpw_occam_terms.specs.Spelling.{letter};
ghost use Rattle.tpw_occam_lexing.specs.Bytes.{run, IsNarrow, IsMarked};
ghost use Rattle.tpw_occam_lexing.specs.Lexemes.{is_int, further, only_where, is_closed, width, begins, lexeme_of};
ghost use Rattle.tpw_occam_lexing.specs.Lexemes as lexeme;

use crate::bytes::{Class, is_letter, run};
use crate::keywords::Keyword;
use crate::symbol::at_front;
use crate::token::Token;
use tpw_occam_terms::{is_hexadecimal, quoted};

/// A token and how many bytes it has.
type Read<'a> = Option<(Token<'a>, usize)>;

/// The bytes of a class at the front.
fn front(text: &str, class: Class) -> &str
    requires { IsNarrow class }
    ensures front { result.now ≡ take (run class text.now) text.now }
    ensures cut { IsCharBoundary text.now (run class text.now) }
    ensures width { length result.now ≡ run class text.now }
{
    let (front, _) = text.split_at(run(text.as_bytes(), class));
    front
}

#[tactic(auto, unfolding(crate::specs::Lexemes::word))]
fn word(rest: &str) -> Read<'_>
    ensures read { option_map (λ r. (lexeme_of r.0, r.1)) result ≡ lexeme.word rest.now }
    ensures cut { IfSome result (λ r. IsCharBoundary rest.now r.1) }
{
    let spelled = front(rest, Class::Word);
    match Keyword::of(spelled) {
        Some(keyword) => Some((Token::Keyword(keyword), spelled.len())),
        None => Some((Token::Name(spelled), spelled.len())),
    }
}

/// One past the greatest INT.
const BEYOND: u64 = 1 << 31;

/// Whether digits make a number that is an INT.
fn is_int(digits: &[u8]) -> bool
    ensures { result ≡ is_int 0 digits.now }
{
    let mut number = 0u64;
    for digit in digits {
        if number >= BEYOND {
            return false;
        }
        number = 10 * number + u64::from(digit.saturating_sub(b'0'));
    }
    number < BEYOND
}

#[tactic(auto, unfolding(crate::specs::Lexemes::decimal))]
fn decimal(rest: &str) -> Read<'_>
    ensures read { option_map (λ r. (lexeme_of r.0, r.1)) result ≡ lexeme.decimal rest.now }
    ensures cut { IfSome result (λ r. IsCharBoundary rest.now r.1) }
{
    let digits = front(rest, Class::Digit);
    if is_int(digits.as_bytes()) {
        Some((Token::Number(digits), digits.len()))
    } else {
        None
    }
}

/// The rest behind the first byte, which is ASCII.
fn behind(rest: &str) -> &str
    requires { IsMarked rest.now }
    ensures { result.now ≡ drop 1 rest.now }
{
    let (_, behind) = rest.split_at(1);
    behind
}

/// A number behind `#`.
#[tactic(auto, unfolding(crate::specs::Lexemes::hexadecimal))]
fn hexadecimal(rest: &str) -> Read<'_>
    requires { IsMarked rest.now }
    ensures read { option_map (λ r. (lexeme_of r.0, r.1)) result ≡ lexeme.hexadecimal rest.now }
    ensures cut { IfSome result (λ r. IsCharBoundary rest.now r.1) }
{
    let digits = front(behind(rest), Class::Hexadecimal);
    if digits.is_empty() || digits.len() > 8 {
        return None;
    }
    let (spelled, _) = rest.split_at(1 + digits.len());
    Some((Token::Number(spelled), 1 + digits.len()))
}

/// Whether a byte is the first one.
fn begins(bytes: &[u8], byte: u8) -> bool
    ensures { result ≡ begins byte bytes.now }
{
    match bytes.first() {
        Some(first) => *first == byte,
        None => false,
    }
}

/// A character between quotes.
#[tactic(auto, unfolding(crate::specs::Lexemes::character))]
fn character(rest: &str) -> Read<'_>
    requires { IsMarked rest.now }
    ensures read { option_map (λ r. (lexeme_of r.0, r.1)) result ≡ lexeme.character rest.now }
    ensures cut { IfSome result (λ r. IsCharBoundary rest.now r.1) }
{
    let within = behind(rest);
    if begins(within.as_bytes(), b'\'') {
        return None;
    }
    let (_, width) = quoted(within)?;
    if !begins(within.as_bytes().split_at(width).1, b'\'') {
        return None;
    }
    let (spelled, _) = within.split_at(width);
    Some((Token::Character(spelled), width + 2))
}

/// Where a byte of a text stands.
#[derive(Clone, Copy)]
enum Within {
    Plain,
    /// Behind `*`.
    Star,
    /// Behind `*#`.
    Hash,
    /// Behind `*#` and a digit.
    High,
}

impl Within {
    /// Whether a byte is the quote that ends the text.
    fn is_closed(self, byte: u8) -> bool
        ensures closed { result ≡ is_closed self byte }
        ensures quote { IsTrue result → byte ≡ 34 }
    {
        match self {
            Within::Plain => byte == b'"',
            _ => false,
        }
    }

    /// The state behind a byte.
    #[tactic(auto, unfolding(crate::specs::Lexemes::further))]
    fn further(self, byte: u8) -> Option<Within>
        ensures { result ≡ further self byte }
    {
        match self {
            Within::Plain if byte == b'*' => Some(Within::Star),
            Within::Plain => only_where(byte < 128, Within::Plain),
            Within::Star if byte == b'#' => Some(Within::Hash),
            Within::Star => only_where(is_letter_of_escape(byte), Within::Plain),
            Within::Hash => only_where(is_hexadecimal(byte), Within::High),
            Within::High => only_where(is_hexadecimal(byte), Within::Plain),
        }
    }
}

fn only_where(test: bool, next: Within) -> Option<Within>
    ensures { result ≡ only_where test next }
{
    if test { Some(next) } else { None }
}

/// Whether a byte stands for one behind `*`.
fn is_letter_of_escape(byte: u8) -> bool
    ensures { result ≡ is_some (letter byte) }
{
    matches!(
        byte,
        b'c' | b'C' | b'n' | b'N' | b't' | b'T' | b's' | b'S' | b'\'' | b'"' | b'*'
    )
}

/// How many bytes stand in front of the quote that ends a text.
fn width(bytes: &[u8]) -> Option<usize>
    ensures width { result ≡ width Within.Plain bytes.now }
    ensures quote { IfSome result (λ n. (n < length bytes.now) × (slice_index bytes.now n ≡ 34)) }
{
    let mut within = Within::Plain;
    for (at, byte) in bytes.iter().enumerate() {
        if within.is_closed(*byte) {
            return Some(at);
        }
        within = within.further(*byte)?;
    }
    None
}

/// A text between quotes.
#[tactic(auto, unfolding(crate::specs::Lexemes::text))]
fn text(rest: &str) -> Read<'_>
    requires { IsMarked rest.now }
    ensures read { option_map (λ r. (lexeme_of r.0, r.1)) result ≡ lexeme.text rest.now }
    ensures cut { IfSome result (λ r. IsCharBoundary rest.now r.1) }
{
    let within = behind(rest);
    let width = width(within.as_bytes())?;
    let (spelled, _) = within.split_at(width);
    Some((Token::Text(spelled), width + 2))
}

/// An operator, a mark or a bracket.
#[tactic(auto, unfolding(crate::specs::Lexemes::symbol))]
fn symbol(rest: &str) -> Read<'_>
    ensures read { option_map (λ r. (lexeme_of r.0, r.1)) result ≡ lexeme.symbol rest.now }
    ensures cut { IfSome result (λ r. IsCharBoundary rest.now r.1) }
{
    let (symbol, width) = at_front(rest.as_bytes())?;
    Some((Token::Symbol(symbol), width))
}

/// The lexeme at the front of a text, and how many bytes it has.
#[tactic(auto, unfolding(crate::specs::Lexemes::lexeme_at))]
pub(crate) fn lexeme(rest: &str) -> Read<'_>
    ensures read { option_map (λ r. (lexeme_of r.0, r.1)) result ≡ lexeme.lexeme_at rest.now }
    ensures cut { IfSome result (λ r. IsCharBoundary rest.now r.1) }
{
    let first = *rest.as_bytes().first()?;
    match first {
        b'#' => hexadecimal(rest),
        b'\'' => character(rest),
        b'"' => text(rest),
        _ if is_letter(first) => word(rest),
        _ if first.is_ascii_digit() => decimal(rest),
        _ => symbol(rest),
    }
}
