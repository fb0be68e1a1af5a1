//! Words of messages, as texts in assembly or in occam write them.

ghost use Rattle.std.specs.Prelude.{◌≡◌};
ghost use Rattle.tpw_occam_terms.specs.Spelling.{letter};
ghost use Rattle.tpw_runs.specs.Packets.{character_said, named_said, value_said};

use tpw_text::signed_of;

/// The byte that a character behind `*` stands for.
fn letter(character: u8) -> Option<u8>
    ensures { result ≡ letter character }
{
    match character {
        b'c' | b'C' => Some(b'\r'),
        b'n' | b'N' => Some(b'\n'),
        b't' | b'T' => Some(b'\t'),
        b's' | b'S' => Some(b' '),
        b'\'' | b'"' | b'*' => Some(character),
        _ => None,
    }
}

/// The number of a character between quotes: `'A'`, or `'*n'`.
fn character_of(text: &[u8]) -> Option<i32>
    ensures { result ≡ character_said text.now }
{
    match text {
        [first, character, last] => {
            let is_plain = *character < 128 && *character != b'*';
            if *first == b'\'' && *last == b'\'' && is_plain {
                Some(i32::from(*character))
            } else {
                None
            }
        }
        [first, star, character, last] => {
            if *first == b'\'' && *star == b'*' && *last == b'\'' {
                letter(*character).map(|byte| i32::from(byte))
            } else {
                None
            }
        }
        _ => None,
    }
}

/// The number of a value that has a name.
fn named_of(text: &[u8]) -> Option<i32>
    ensures { result ≡ named_said text.now }
{
    if text == b"TRUE".as_slice() {
        Some(1)
    } else if text == b"FALSE".as_slice() {
        Some(0)
    } else {
        character_of(text)
    }
}

/// The word that a text writes, read as a signed number: a number of assembly text, TRUE, FALSE, or a character of
/// occam.
pub(crate) fn value_of(text: &[u8]) -> Option<i32>
    ensures { result ≡ value_said text.now }
{
    match signed_of(text) {
        Some(number) => Some(number),
        None => named_of(text),
    }
}
