//! The work that the judgement is compared with: loops over a listing that mix what they read into a number. The number
//! differs in each round: no compiler can leave a round out.
use tp_decode::{Instr, Listing};

/// Each instruction is read once, by its number.
pub fn mixed_by_number(listing: &Listing, seed: u64) -> u64 {
    let mut mix = seed;
    for i in 0..listing.len() {
        if let Some(placed) = listing.get(i) {
            mix = mixed(mix, placed.at, placed.instr, placed.next);
        }
    }
    mix
}

/// Each instruction is read once, by its address.
pub fn mixed_by_address(listing: &Listing, seed: u64) -> u64 {
    let mut mix = seed;
    for start in listing.starts() {
        let at = *start as usize;
        if let Some(instr) = listing.at(at)
            && let Some(next) = listing.next(at)
        {
            mix = mixed(mix, at, instr, next);
        }
    }
    mix
}

/// A number with an instruction's addresses, where it is a jump those of its target.
fn mixed(mix: u64, at: usize, instr: Instr, next: usize) -> u64 {
    let to = match instr {
        Instr::Jump(operand) => next.wrapping_add_signed(operand as isize),
        Instr::Cj(operand) => next.wrapping_add_signed(operand as isize),
        _ => next,
    };
    (mix ^ at as u64).wrapping_add(to as u64)
}
