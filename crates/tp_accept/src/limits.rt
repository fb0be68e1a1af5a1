//! Limits of what a code may cost.

/// The greatest budget, in instruction bytes.
pub const MAX_BUDGET: u32 = 16_777_216;
