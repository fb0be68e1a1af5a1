//! Images and codes, by what they do.

/// The code of `SUM_TO_TEN`: instructions start at 0, 1, 3 to 18, 20, 21, 23, 24 and 25; the lend is at 18.
pub(crate) const SUM_CODE: &[u8] = b"\
    \x10\x24\xF2\x54\x44\xF7\x40\xD1\x40\xD2\x4A\xD3\x71\x72\xF5\xD1\x12\x48\x22\xF1\
    \x11\x24\xF2\x44\xFB\x21\xF5";

/// ldc at 0 to 3, lend at 4, ldc at 6, lend at 7, stopp at 9.
pub(crate) const TWO_LENDS: &[u8] = b"\x40\x40\x40\x40\x22\xF1\x40\x22\xF1\x21\xF5";

/// ldc at 0 to 5, lend at 6, 8, 10 and 12, stopp at 14.
pub(crate) const FOUR_LENDS: &[u8] =
    b"\x40\x40\x40\x40\x40\x40\x22\xF1\x22\xF1\x22\xF1\x22\xF1\x21\xF5";

/// ldc at 0 to 6, lend at 7, 9, 11, 13 and 15, stopp at 17.
pub(crate) const FIVE_LENDS: &[u8] =
    b"\x40\x40\x40\x40\x40\x40\x40\x22\xF1\x22\xF1\x22\xF1\x22\xF1\x22\xF1\x21\xF5";
