use crate::instr::Instr;

/// An instruction in its place in a code. Addresses are bytes, counted from the code's first.
#[derive(Clone, Copy, Debug, PartialEq, Eq)]
pub struct Placed {
    /// the address of its first byte
    pub at: usize,
    pub instr: Instr,
    /// the address after its last byte
    pub next: usize,
}
