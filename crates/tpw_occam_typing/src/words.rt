//! Words that the language names.

/// `MOSTPOS INT`.
pub const MOST_POSITIVE: u32 = 0x7FFF_FFFF;

/// `MOSTNEG INT`.
pub(crate) const MOST_NEGATIVE: u32 = 0x8000_0000;
