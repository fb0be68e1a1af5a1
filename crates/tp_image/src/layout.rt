//! The places of a header's fields, in bytes from the image's first, and how long its parts are.

/// The place of the number of code bytes.
pub const CODE_AT: usize = 4;

/// The place of the number of workspace words.
pub const WORKSPACE_AT: usize = 6;

/// The place of the start word.
pub const START_AT: usize = 8;

/// The place of the number of packet words.
pub const PACKET_AT: usize = 10;

/// The place of the number of result words.
pub const RESULT_AT: usize = 12;

/// The place of the number of loop rows.
pub const LOOPS_AT: usize = 14;

/// The place of the number of initial words, in version 2.
pub const INITIAL_AT: usize = 16;

/// The bytes of a version 1 header, its magic counted.
pub const HEADER_BYTES_1: usize = 16;

/// The bytes of a version 2 header, its magic counted.
pub const HEADER_BYTES_2: usize = 18;

/// The bytes of a loop row.
pub const ROW_BYTES: usize = 12;

/// The bytes of a word.
pub const WORD_BYTES: usize = 4;
