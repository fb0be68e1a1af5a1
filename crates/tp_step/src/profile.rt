//! The profile's numbers, for the crates that run or judge worker code. The definitions have the same
//! numbers.

ghost use Rattle.std.specs.Prelude.{◌≡◌};
ghost use Rattle.tp_step.specs.Effects.{has_move};

use tp_image::{Image, Version, layout};

/// The bytes of a word.
pub const WORD_BYTES: u32 = layout::WORD_BYTES as u32;

/// The address of workspace word 0 (IMS T414 data sheet, memory map: MemStart).
pub const MEM_START: u32 = 0x8000_0048;

/// The channel that a result is sent on: link 0's output (IMS T414 data sheet, memory map).
pub const LINK0_OUTPUT: u32 = 0x8000_0000;

/// The channel that trace messages are sent on: link 1's output.
pub const LINK1_OUTPUT: u32 = 0x8000_0004;

/// The channel that the packet comes from: link 0's input.
pub const LINK0_INPUT: u32 = 0x8000_0010;

/// The most bytes of a trace message.
pub const MAX_TRACE_BYTES: u32 = 256;

/// The most bytes of a move.
pub const MAX_MOVE_BYTES: u32 = 2048;

/// The words below Wptr that are undefined after a place to deschedule.
pub const FRAME_WORDS: u32 = 5;

/// Whether the image's version has move.
pub fn has_move(image: &Image) -> bool
    ensures { result ≡ has_move image.now.version }
{
    image.version == Version::Two
}
