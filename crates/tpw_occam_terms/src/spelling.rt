//! Spellings between quotes.

ghost use Rattle.std.specs.Prelude.{◌≡◌, ◌<◌, ◌≤◌, IfOk, IfSome, IfNone, is_some, length, drop, option_map};
ghost use Rattle.tpw_occam_terms.specs.Spelling.{digit, hexadecimal, letter, escaped, front, Spells};

use std::alloc::{AllocError, Global};

/// Whether a byte is a hexadecimal digit: 0 to 9, or A to F.
pub fn is_hexadecimal(byte: u8) -> bool
    ensures { result ≡ is_some (digit byte) }
{
    digit(byte).is_some()
}

/// The number that a hexadecimal digit stands for.
fn digit(byte: u8) -> Option<u8>
    ensures value { result ≡ digit byte }
    ensures below { IfSome result (λ n. n < 16) }
{
    match byte {
        b'0'..=b'9' => Some(byte - b'0'),
        b'A'..=b'F' => Some(byte - b'A' + 10),
        _ => None,
    }
}

/// The byte that two hexadecimal digits spell, and what stands behind them.
fn hexadecimal(spelled: &[u8]) -> Option<(u8, &[u8])>
    ensures value { option_map (λ x. (x.0, x.1.now)) result ≡ hexadecimal spelled.now }
    ensures behind { IfSome result (λ x. length x.1.now < length spelled.now) }
{
    let (high, rest) = spelled.split_first()?;
    let (low, behind) = rest.split_first()?;
    let (high, low) = (digit(*high)?, digit(*low)?);
    Some((16 * high + low, behind))
}

/// The byte that a character behind `*` stands for.
fn letter(character: u8) -> Option<u8>
    ensures { result ≡ letter character }
{
    match character {
        b'c' | b'C' => Some(b'\r'),
        b'n' | b'N' => Some(b'\n'),
        b't' | b'T' => Some(b'\t'),
        b's' | b'S' => Some(b' '),
        b'\'' | b'"' | b'*' => Some(character),
        _ => None,
    }
}

/// The byte that is spelled behind `*`, and what stands behind that.
fn escaped(spelled: &[u8]) -> Option<(u8, &[u8])>
    ensures value { option_map (λ x. (x.0, x.1.now)) result ≡ escaped spelled.now }
    ensures behind { IfSome result (λ x. length x.1.now < length spelled.now) }
{
    let (character, behind) = spelled.split_first()?;
    if *character == b'#' {
        return hexadecimal(behind);
    }
    let byte = letter(*character)?;
    Some((byte, behind))
}

/// The byte that the front spells, and what stands behind.
fn front(spelled: &[u8]) -> Option<(u8, &[u8])>
    ensures value { option_map (λ x. (x.0, x.1.now)) result ≡ front spelled.now }
    ensures behind { IfSome result (λ x. length x.1.now < length spelled.now) }
{
    let (character, behind) = spelled.split_first()?;
    if *character == b'*' {
        return escaped(behind);
    }
    if *character < 128 {
        Some((*character, behind))
    } else {
        None
    }
}

/// The byte at the front of what stands within quotes, and how many bytes spell it; none where they spell nothing.
pub fn quoted(rest: &str) -> Option<(u8, usize)>
    ensures some { IfSome result (λ x. front rest.now ≡ Some (x.0, drop x.1 rest.now)) }
    ensures width { IfSome result (λ x. (0 < x.1) × (x.1 ≤ length rest.now)) }
    ensures none { IfNone result (front rest.now ≡ None) }
{
    let (byte, behind) = front(rest.as_bytes())?;
    Some((byte, rest.len().saturating_sub(behind.len())))
}

/// The bytes that a text means, as it is spelled between its quotes: of each character its byte, and of `*n`, `*#41`
/// and their like the one that they stand for. Of a text that is no [`Expression::Text`](crate::Expression::Text),
/// those in front of what spells nothing.
///
/// ```
/// assert_eq!(text_bytes(alloc, "a*n")?.as_slice(), b"a\n");
/// ```
pub fn text_bytes(alloc: Global, spelled: &str) -> Result<Vec<u8>, AllocError>
    ensures { IfOk result (λ bytes. Spells spelled.now bytes.items) }
{
    let mut bytes = Vec::new(alloc);
    let mut left = spelled.as_bytes();
    while let Some((byte, behind)) = front(left) {
        bytes.push(byte)?;
        left = behind;
    }
    Ok(bytes)
}
