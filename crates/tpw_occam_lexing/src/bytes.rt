//! Runs of bytes.

ghost use Rattle.std.specs.Prelude.{◌≡◌, ◌≤◌, length};
ghost use Rattle.tpw_occam_lexing.specs.Bytes.{has, is_letter, run};

use tpw_occam_terms::is_hexadecimal;

/// The class of the bytes of a run.
#[derive(Clone, Copy)]
pub(crate) enum Class {
    /// Those of a name or a keyword.
    Word,
    Digit,
    Hexadecimal,
    Space,
    /// Those of a line of a text.
    Line,
    /// Those that are not ASCII.
    Wide,
    Tab,
}

/// Whether a byte is a letter.
pub(crate) fn is_letter(byte: u8) -> bool
    ensures { result ≡ is_letter byte }
{
    matches!(byte, b'A'..=b'Z' | b'a'..=b'z')
}

impl Class {
    #[tactic(auto, unfolding(crate::specs::Bytes::has))]
    pub(crate) fn has(self, byte: u8) -> bool
        ensures { result ≡ has self byte }
    {
        match self {
            Class::Word => is_letter(byte) || byte.is_ascii_digit() || byte == b'.',
            Class::Digit => byte.is_ascii_digit(),
            Class::Hexadecimal => is_hexadecimal(byte),
            Class::Space => byte == b' ',
            Class::Line => byte != b'\n',
            Class::Wide => byte >= 128,
            Class::Tab => byte == b'\t',
        }
    }
}

/// How many bytes at the front are of a class.
pub(crate) fn run(bytes: &[u8], class: Class) -> usize
    ensures run { result ≡ run class bytes.now }
    ensures within { result ≤ length bytes.now }
{
    let mut count = 0usize;
    for byte in bytes {
        if !class.has(*byte) {
            return count;
        }
        count += 1;
    }
    count
}
