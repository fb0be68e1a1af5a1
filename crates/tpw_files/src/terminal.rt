//! Standard error.

/// Where faults are written, and whether somebody waits there.
#[derive(Drop)]
pub struct Terminal<'e, E> {
    pub errors: &'e mut E,
    /// Whether it is a terminal, where progress is shown.
    pub is_terminal: bool,
}
