//! Words and bytes.

/// The kind of a variable or of an array's elements: words, or bytes, which are numbers from 0 to 255.
#[derive(Clone, Copy, Debug, PartialEq, Eq)]
pub enum Kind {
    Word,
    Byte,
}
