use crate::instr::Instr;
use arrayvec::ArrayVec;

/// An instruction and the bytes that spell it.
#[derive(Drop)]
pub(crate) struct Piece {
    pub(crate) spelling: ArrayVec<u8, 8>,
    pub(crate) instr: Instr,
}
