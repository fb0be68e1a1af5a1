//! Words as text.

use std::fmt;
use tp_step::profile::{MEM_START, WORD_BYTES};
use tpw_debug::{Indexed, SourceText};

/// How values are written.
#[derive(Clone, Copy)]
pub(crate) struct Style<'a> {
    pub(crate) source: SourceText<'a>,
    /// Whether a number has its hexadecimal behind it.
    pub(crate) hexadecimal: bool,
}

/// A register or a word of the workspace: `&buf[2]` where it is the address of an element that the text names; else a
/// signed number, or `-` where it is undefined.
#[derive(Clone, Copy)]
pub(crate) struct Value<'a> {
    pub(crate) word: Option<u32>,
    pub(crate) style: Style<'a>,
}

/// Writes a byte as a number, or `-` where it is undefined.
pub(crate) fn write_byte<W: fmt::Write>(
    f: &mut fmt::Formatter<W>,
    byte: Option<u8>,
    hexadecimal: bool,
) -> fmt::Result {
    let Some(value) = byte else {
        return f.write_str("-");
    };
    write!(f, "{value}")?;
    if hexadecimal {
        write!(f, " (#{value:X})")?;
    }
    Ok(())
}

/// What an address points at in a workspace, if that has a name: a word, or a byte of an array of such.
fn pointed_at<'a>(source: SourceText<'a>, address: u32) -> Option<Indexed<'a>> {
    let bytes = address.checked_sub(MEM_START)?;
    let word = (bytes / WORD_BYTES) as usize;
    let within = bytes % WORD_BYTES;
    let named = source.named(word)?;
    match named.bytes {
        Some(count) => {
            let index = named.first_byte(word).saturating_add(within as usize);
            if index < count {
                Some(named.of_byte(index))
            } else {
                None
            }
        }
        None if within == 0 => Some(named.of(word)),
        None => None,
    }
}

impl fmt::Display for Value<'_> {
    fn fmt<W: fmt::Write>(&self, f: &mut fmt::Formatter<W>) -> fmt::Result {
        let Some(value) = self.word else {
            return f.write_str("-");
        };
        let source = self.style.source;
        match pointed_at(source, value) {
            Some(name) => write!(f, "&{name}"),
            None => {
                let number = value.cast_signed();
                write!(f, "{number}")?;
                if self.style.hexadecimal {
                    write!(f, " (#{value:X})")?;
                }
                Ok(())
            }
        }
    }
}
