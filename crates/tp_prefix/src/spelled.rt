/// The reading of a spelling, and where it ends.
#[derive(Clone, Copy, Debug, PartialEq, Eq)]
pub struct Spelled {
    /// The function, 0 to 15 and neither pfix nor nfix.
    pub function: u8,
    /// Oreg when the function is executed, read as a signed word.
    pub operand: i32,
    /// The address of the byte after the spelling.
    pub next: usize,
}

/// Why there is no spelling at an address, which each variant gives.
#[derive(Clone, Copy, Debug, PartialEq, Eq)]
pub enum PrefixFault {
    /// The code ends after 1 to 7 prefixes.
    D1(usize),
    /// Eight prefixes are there.
    D2(usize),
}
