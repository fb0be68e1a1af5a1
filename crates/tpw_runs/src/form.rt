//! How results are shown.

/// How the line of a result is written.
#[derive(Clone, Copy, Debug, PartialEq, Eq)]
pub struct Style {
    /// Results in hexadecimal as they are sent, else their words as signed numbers.
    pub hexadecimal: bool,
    /// Whether a line with its trace follows each result.
    pub trace: bool,
}

/// A result that is expected of a packet.
#[derive(Drop)]
pub struct Expected {
    /// The error flag that the worker leaves.
    pub error: bool,
    pub message: Vec<u8>,
}

/// The form in which each packet is shown.
#[derive(Clone, Copy)]
pub enum Form<'e> {
    /// A line with what became of it.
    Lines(Style),
    /// The bytes of its result alone; nothing of a packet that is lost.
    Raw,
    /// As lines, but only of packets whose result and error flag are not those that are expected of their number.
    Differences(Style, &'e [Expected]),
}
