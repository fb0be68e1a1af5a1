//! The knowledge of a seat, for contracts and proofs alone: no value of these types is ever made.
use std::collections::LinkedList;

/// The four words of a board, or what a seat has seen of them.
pub struct Counters {
    pub claimed: u64,
    pub done: u64,
    pub lost: u64,
    pub stop: u64,
}

/// The knowledge of a seat, or of several in one: the board's count of packets, how many seats it is, how
/// many atomic steps it has made, the numbers that it drew and where each of them went, how many of
/// it learnt the end, how many of it called stop, and what it has seen of the words.
pub struct View {
    pub packets: u64,
    pub parts: u64,
    pub steps: u64,
    pub drawn: LinkedList<u32>,
    pub finished: LinkedList<u32>,
    pub abandoned: LinkedList<u32>,
    pub hand: LinkedList<u32>,
    pub ended: u64,
    pub stop_callers: u64,
    pub seen: Counters,
}
