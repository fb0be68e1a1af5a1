//! Limits, each said once.

ghost use Rattle.std.specs.Prelude.{◌≤◌};

/// How deep expressions and processes lie within one another at the most, inlined ones among them: so deep do the
/// calls go that make a worker, run it and compile it. A guard lies within those before it, a process within the names
/// that are declared in front of it, and a step within the halves of its SEQ.
pub const MAX_DEPTH: u32 = 500;

/// The levels that are left within this many others.
pub fn levels_within(levels: u32, others: usize) -> u32
    ensures { result ≤ levels }
{
    match u32::try_from(others) {
        Ok(others) if others <= levels => levels - others,
        _ => 0,
    }
}

/// The most calls within one another.
pub(crate) const MAX_CALLS: u32 = 40;

/// The most expressions and processes of a worker, with its calls inlined.
pub(crate) const MAX_IN_LINE: u32 = 300_000;

/// The most bytes of an array: all words of a workspace.
pub(crate) const MAX_ARRAY_BYTES: u64 = 2_048;

/// The most words of a message.
pub(crate) const MAX_MESSAGE_WORDS: u64 = 64;

/// The most names that are compared with one, to find the nearest.
pub(crate) const MAX_NEIGHBOURS: usize = 1_000;

/// The longest name that others are compared with, to find the nearest.
pub(crate) const MAX_COMPARED: usize = 40;
