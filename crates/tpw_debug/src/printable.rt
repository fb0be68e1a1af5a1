//! Texts of strangers, as they are written to a terminal.

use std::fmt;

/// A text that a stranger wrote. A terminal obeys nothing of it: each control character but a tab is written as its
/// number, `\x1B`.
#[derive(Clone, Copy, Debug, PartialEq, Eq)]
pub struct Printable<'a>(pub &'a str);

/// Whether a character is written as its number.
pub(crate) fn is_numbered(c: char) -> bool {
    c.is_control() && c != '\t'
}

/// Whether a byte is a character that is written as it is.
fn is_plain(byte: u8) -> bool {
    byte.is_ascii_graphic() || byte == b' ' || byte == b'\t'
}

impl fmt::Display for Printable<'_> {
    fn fmt<W: fmt::Write>(&self, f: &mut fmt::Formatter<W>) -> fmt::Result {
        if self.0.bytes().all(|byte| is_plain(byte)) {
            return f.write_str(self.0);
        }
        for c in self.0.chars() {
            if is_numbered(c) {
                let number = u32::from(c);
                write!(f, "\\x{number:02X}")?;
            } else {
                f.write_char(c)?;
            }
        }
        Ok(())
    }
}
