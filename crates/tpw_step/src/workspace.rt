//! The words of a workspace, and those that an instruction wrote.

use crate::reach::{Reach, Stretch, WORDS};
use crate::stepper::Stepper;
use crate::value::{Style, Value, write_byte};
use crate::watched::Watched;
use std::alloc::{AllocError, Global};
use std::fmt;
use tp_step::profile::{MEM_START, WORD_BYTES};
use tpw_debug::Named;

/// The words of a workspace, as they stood once.
#[derive(Drop)]
pub(crate) struct Workspace {
    words: Vec<Option<u32>>,
}

impl Workspace {
    /// The words where a run is.
    pub(crate) fn of(alloc: Global, stepper: &Stepper) -> Result<Workspace, AllocError> {
        let count = stepper.image().workspace;
        let mut words = Vec::with_capacity(alloc, count as usize)?;
        for i in 0..count.min(WORDS) {
            words.push(stepper.word(i))?;
        }
        Ok(Workspace { words })
    }

    /// Takes over the words of a stretch where a run is. Those that have changed are appended.
    fn refresh_stretch(
        &mut self,
        stepper: &Stepper,
        stretch: Stretch,
        changes: &mut Vec<Change>,
    ) -> Result<(), AllocError> {
        let first = u32::try_from(stretch.first).unwrap_or(0);
        let end = u32::try_from(stretch.end).unwrap_or(0).min(WORDS);
        for i in first..end {
            if let Some(word) = self.words.get_mut(i as usize) {
                let before = *word;
                let after = stepper.word(i);
                if before != after {
                    *word = after;
                    changes.push(Change {
                        word: i as usize,
                        before,
                        after,
                    })?;
                }
            }
        }
        Ok(())
    }

    /// Takes over the words where a run is, of which an instruction may have written these. Those that have changed are
    /// appended, in order.
    pub(crate) fn refresh(
        &mut self,
        stepper: &Stepper,
        reach: Reach,
        changes: &mut Vec<Change>,
    ) -> Result<(), AllocError> {
        self.refresh_stretch(stepper, reach.low, changes)?;
        self.refresh_stretch(stepper, reach.high, changes)
    }

    /// Whether `bytes` bytes from an address on lie in it.
    pub(crate) fn holds(&self, address: u32, bytes: u32) -> bool {
        let first = u64::from(address);
        let end = u64::from(MEM_START).saturating_add(u64::from(WORD_BYTES).saturating_mul(
            self.words.len() as u64,
        ));
        MEM_START <= address && first.saturating_add(u64::from(bytes)) <= end
    }

    /// The word of a number, if it is defined.
    pub(crate) fn word(&self, number: usize) -> Option<u32> {
        self.words.get(number).copied().flatten()
    }

    /// The word at an address, if it is defined.
    pub(crate) fn at(&self, address: u32) -> Option<u32> {
        let i = address.checked_sub(MEM_START)? / WORD_BYTES;
        self.word(i as usize)
    }
}

/// A word that was written, or made undefined: what it was, and what it is.
#[derive(Clone, Copy, Debug, PartialEq, Eq)]
pub(crate) struct Change {
    pub(crate) word: usize,
    pub(crate) before: Option<u32>,
    pub(crate) after: Option<u32>,
}

/// The words that an instruction has changed.
#[derive(Clone, Copy)]
pub(crate) struct Written<'a> {
    pub(crate) changes: &'a [Change],
    pub(crate) style: Style<'a>,
}

/// The bytes of a word, low byte first; none is defined where the word is not.
fn bytes_of(word: Option<u32>) -> [Option<u8>; 4] {
    match word {
        Some(value) => {
            let [a, b, c, d] = value.to_le_bytes();
            [Some(a), Some(b), Some(c), Some(d)]
        }
        None => [None; 4],
    }
}

/// A word of the workspace, as it was and as it is: ` buf[2]=3`, or ` w5=3` with the word's number where it has no name;
/// of an array of bytes each byte that is another.
#[derive(Clone, Copy)]
struct Valued<'a> {
    word: usize,
    before: Option<u32>,
    value: Value<'a>,
}

impl Valued<'_> {
    /// Writes the bytes of an array that are other than before.
    fn write_bytes<W: fmt::Write>(
        &self,
        named: Named<'_>,
        bytes: usize,
        f: &mut fmt::Formatter<W>,
    ) -> fmt::Result {
        let first = named.first_byte(self.word);
        let both = bytes_of(self.before)
            .into_iter()
            .zip(bytes_of(self.value.word));
        for (i, (old, new)) in both.enumerate() {
            let index = first.saturating_add(i);
            if old != new && index < bytes {
                let name = named.of_byte(index);
                write!(f, " {name}=")?;
                write_byte(f, new, self.value.style.hexadecimal)?;
            }
        }
        Ok(())
    }
}

impl fmt::Display for Valued<'_> {
    fn fmt<W: fmt::Write>(&self, f: &mut fmt::Formatter<W>) -> fmt::Result {
        let word = self.word;
        let value = self.value;
        let Some(named) = value.style.source.named(word) else {
            return write!(f, " w{word}={value}");
        };
        match named.bytes {
            Some(bytes) => self.write_bytes(named, bytes, f),
            None => {
                let name = named.of(word);
                write!(f, " {name}={value}")
            }
        }
    }
}

/// The words of a workspace that are defined and are not 0.
#[derive(Clone, Copy)]
pub(crate) struct Values<'a> {
    pub(crate) workspace: &'a Workspace,
    pub(crate) style: Style<'a>,
}

impl fmt::Display for Values<'_> {
    fn fmt<W: fmt::Write>(&self, f: &mut fmt::Formatter<W>) -> fmt::Result {
        let style = self.style;
        let workspace = self.workspace;
        for (word, value) in workspace.words.iter().enumerate() {
            if value.is_some_and(|number| number != 0) {
                let value = Value {
                    word: *value,
                    style,
                };
                let valued = Valued {
                    word,
                    before: Some(0),
                    value,
                };
                write!(f, "{valued}")?;
            }
        }
        Ok(())
    }
}

impl Change {
    /// Whether a byte that is watched at an address is another than before.
    fn is_watched(&self, watched: &[Watched], at: Option<usize>) -> bool {
        let first = self.word.saturating_mul(WORD_BYTES as usize);
        let mut both = bytes_of(self.before)
            .into_iter()
            .zip(bytes_of(self.after))
            .enumerate();
        both.any(|(i, (old, new))| old != new
            && watched
                .iter()
                .any(|one| one.has(first.saturating_add(i), at)))
    }
}

impl Written<'_> {
    /// Whether a byte of these is among them.
    pub(crate) fn changes(&self, watched: &[Watched]) -> bool {
        let at = self.style.source.at;
        self.changes
            .iter()
            .any(|change| change.is_watched(watched, at))
    }
}

impl fmt::Display for Written<'_> {
    fn fmt<W: fmt::Write>(&self, f: &mut fmt::Formatter<W>) -> fmt::Result {
        for change in self.changes {
            let valued = Valued {
                word: change.word,
                before: change.before,
                value: Value {
                    word: change.after,
                    style: self.style,
                },
            };
            write!(f, "{valued}")?;
        }
        Ok(())
    }
}
