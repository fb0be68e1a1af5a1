//! The choices of a command line.

/// The options of a command line.
#[derive(Clone, Copy, Debug, PartialEq, Eq)]
pub struct Options {
    /// How many members run a batch, 1 to 64.
    pub members: usize,
    /// Whether each result is followed by its trace.
    pub trace: bool,
}
