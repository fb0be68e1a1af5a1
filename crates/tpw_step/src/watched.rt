//! Words of a workspace that are watched, by their bytes.

use tp_image::layout::WORD_BYTES;
use tpw_debug::Named;

/// Bytes of a workspace, the first by its number, that are watched at the addresses from one on up to another: where the
/// name that they are given by names them.
#[derive(Clone, Copy, Debug, PartialEq, Eq)]
pub struct Watched {
    pub first: usize,
    pub bytes: usize,
    pub from: usize,
    pub to: usize,
}

impl Watched {
    /// What has a name.
    pub fn of(named: &Named<'_>) -> Watched {
        Watched {
            first: named.first.saturating_mul(WORD_BYTES),
            bytes: named.words.saturating_mul(WORD_BYTES),
            from: named.from,
            to: named.to,
        }
    }

    /// Some bytes of these, the first by its number among them.
    pub fn part(self, first: usize, bytes: usize) -> Watched {
        Watched {
            first: self.first.saturating_add(first),
            bytes,
            ..self
        }
    }

    /// A word, by its number, wherever it is.
    pub fn word(number: usize) -> Watched {
        Watched {
            first: number.saturating_mul(WORD_BYTES),
            bytes: WORD_BYTES,
            from: 0,
            to: usize::MAX,
        }
    }

    /// Whether a byte is among them at an address; where none is at hand, wherever it is.
    pub(crate) fn has(&self, byte: usize, at: Option<usize>) -> bool {
        let is_in_scope = match at {
            Some(at) => self.from <= at && at < self.to,
            None => true,
        };
        is_in_scope && self.first <= byte && byte.saturating_sub(self.first) < self.bytes
    }
}
