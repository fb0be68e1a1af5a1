//! The answers of calls of which one allocation was refused, and how that one is chosen.

use std::alloc::Global;

/// The allocation of a program that is refused.
const REFUSED: u64 = 1000;

/// The number that a text has, or 0.
pub fn number_in(text: &[u8]) -> u64 {
    let mut number = 0u64;
    for byte in text {
        if byte.is_ascii_digit() {
            number = number
                .saturating_mul(10)
                .saturating_add(u64::from(*byte - b'0'));
        }
    }
    number
}

/// Makes allocations, one after another, until the one of this number from then on is allocation number 1,000 of the
/// program.
pub fn spend_all_but(alloc: Global, number: u64) {
    for i in 0..REFUSED.saturating_sub(number) {
        let _ = Box::new(alloc, i);
    }
}

/// The answer of a call.
#[derive(Clone, Copy, Debug, PartialEq, Eq)]
pub enum Answer {
    /// The answer of ample memory.
    Same,
    /// That memory was refused.
    Memory,
    /// Anything else.
    Other,
}

/// Same where the test holds, else anything else.
pub fn same_if(test: bool) -> Answer {
    if test { Answer::Same } else { Answer::Other }
}

/// How often each was answered, and how much was written.
#[derive(Drop)]
pub struct Tally {
    pub same: u32,
    pub memory: u32,
    pub other: u32,
    pub written: usize,
}

impl Tally {
    /// No answer yet.
    pub fn new() -> Tally {
        Tally {
            same: 0,
            memory: 0,
            other: 0,
            written: 0,
        }
    }

    /// Counts an answer.
    pub fn add(&mut self, answer: Answer) {
        match answer {
            Answer::Same => self.same = self.same.saturating_add(1),
            Answer::Memory => self.memory = self.memory.saturating_add(1),
            Answer::Other => self.other = self.other.saturating_add(1),
        }
    }
}
