//! The limits of the fields of an image.

/// The most code bytes of a version 1 image.
pub const MAX_CODE_BYTES_1: u32 = 2048;

/// The most code bytes of a version 2 image.
pub const MAX_CODE_BYTES_2: u32 = 8192;

/// The fewest workspace words of an image.
pub const MIN_WORKSPACE: u32 = 8;

/// The most workspace words of a version 1 image.
pub const MAX_WORKSPACE_WORDS_1: u32 = 256;

/// The most workspace words of a version 2 image.
pub const MAX_WORKSPACE_WORDS_2: u32 = 512;

/// The least start word: the words below it that a process loses when it is descheduled.
pub const MIN_START: u32 = 5;

/// The most words of a packet, and of a result.
pub const MAX_MESSAGE_WORDS: u32 = 64;

/// The most loop rows of an image.
pub const MAX_LOOP_ROWS: u32 = 16;
