//! The values of numbers and characters, as they are spelled.

ghost use Rattle.std.specs.Prelude.{◌≡◌, ◌<◌, Some, IfSome};
ghost use Rattle.tpw_occam_terms.specs.Spelling.{digit, letter};
ghost use Rattle.tpw_occam_meaning.specs.Literals as text;

/// The number that a digit stands for.
fn digit(c: u8) -> Option<u32>
    ensures digit { result ≡ digit c }
    ensures small { IfSome result (λ n. n < 16) }
{
    match c {
        b'0'..=b'9' => Some(u32::from(c - b'0')),
        b'A'..=b'F' => Some(u32::from(c - b'A') + 10),
        _ => None,
    }
}

/// The number behind one, by further digits; none where there is none below 2 to the 32.
fn further(base: u32, number: u32, digits: &[u8]) -> Option<u32>
    ensures { IfSome result (λ n. text.further base number digits.now ≡ Some n) }
{
    let Some((first, more)) = digits.split_first() else {
        return Some(number);
    };
    let digit = digit(*first)?;
    if digit >= base {
        return None;
    }
    let number = number.checked_mul(base)?.checked_add(digit)?;
    further(base, number, more)
}

/// The number that is spelled, where one is.
pub fn number(spelled: &str) -> Option<u32>
    ensures { IfSome result (λ n. text.number spelled.now ≡ Some n) }
{
    let bytes = spelled.as_bytes();
    let (first, digits) = bytes.split_first()?;
    if *first == b'#' {
        if digits.is_empty() || digits.len() > 8 {
            return None;
        }
        return further(16, 0, digits);
    }
    let number = further(10, 0, bytes)?;
    if number < 0x8000_0000 {
        Some(number)
    } else {
        None
    }
}

/// The byte that a character behind `*` stands for.
fn letter(c: u8) -> Option<u8>
    ensures { result ≡ letter c }
{
    match c {
        b'c' | b'C' => Some(13),
        b'n' | b'N' => Some(10),
        b't' | b'T' => Some(9),
        b's' | b'S' => Some(32),
        b'\'' | b'"' | b'*' => Some(c),
        _ => None,
    }
}

/// The byte that is spelled as one character, where one is.
pub fn character(spelled: &str) -> Option<u32>
    ensures { IfSome result (λ n. text.character spelled.now ≡ Some n) }
{
    match spelled.as_bytes() {
        [c] if *c != b'*' && *c < 128 => Some(u32::from(*c)),
        [b'*', c] if *c != b'#' => Some(u32::from(letter(*c)?)),
        [b'*', b'#', high, low] => {
            let high = digit(*high)?;
            let low = digit(*low)?;
            Some(16 * high + low)
        }
        _ => None,
    }
}
