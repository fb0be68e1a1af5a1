//! Sizes of messages.

/// The most bytes of a packet, of a result, and of a packet's trace.
pub const MAX_MESSAGE: usize = 256;
