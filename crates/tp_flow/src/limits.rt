//! Limits of loops.

use tp_image::limits::MAX_LOOP_ROWS;

/// The most loops of a code: the rows of an image.
pub const MAX_LOOPS: usize = MAX_LOOP_ROWS as usize;

/// The most turns of a loop.
pub const MAX_TURNS: u32 = 10_000;

/// The greatest index of a turn: the greatest signed word.
pub const MAX_INDEX: u32 = 2_147_483_647;

/// The most loops that lie within one another.
pub const MAX_DEPTH: usize = 4;
