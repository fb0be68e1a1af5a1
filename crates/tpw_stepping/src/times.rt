//! How often the lines of a text, or the instructions of an image, are run.

use crate::shares::Shares;
use std::alloc::Global;
use tp_decode::{Instr, Listing};
use tpw_files::Failure;

/// How often a piece of code is run that a line says: the instructions of it that follow one another.
#[derive(Clone, Copy, Debug, PartialEq, Eq)]
struct Piece {
    place: usize,
    /// Those of its instruction that is run most.
    times: u64,
    /// Whether a turn of a loop ends in it.
    has_lend: bool,
    /// Whether it only leads over others.
    is_jump: bool,
}

impl Piece {
    /// That of one instruction.
    fn new(place: usize, instr: Instr, times: u64) -> Piece {
        Piece {
            place,
            times,
            has_lend: instr == Instr::Lend,
            is_jump: matches!(instr, Instr::Jump(_)),
        }
    }

    /// With the piece behind it, of the same line.
    fn with(self, other: Piece) -> Piece {
        Piece {
            place: self.place,
            times: self.times.max(other.times),
            has_lend: self.has_lend || other.has_lend,
            is_jump: self.is_jump && other.is_jump,
        }
    }
}

/// How often the pieces of a line, or of an instruction of an image, are run together, by their kinds: a line has one of
/// each for every call in which it stands.
#[derive(Clone, Copy, Debug, PartialEq, Eq)]
pub struct Times {
    place: usize,
    turns: Option<u64>,
    plain: Option<u64>,
    jumps: Option<u64>,
}

/// A sum, one of which may be missing.
fn with(sum: Option<u64>, times: u64) -> Option<u64> {
    Some(sum.unwrap_or(0).saturating_add(times))
}

impl Times {
    /// How often it is run: the line that begins a loop by its turns, and the jumps behind the branches of a guard not
    /// counted beside it.
    fn all(&self) -> u64 {
        self.turns.or(self.plain).or(self.jumps).unwrap_or(0)
    }

    /// Counts a piece.
    fn add(&mut self, piece: Piece) {
        if piece.has_lend {
            self.turns = with(self.turns, piece.times);
        } else if piece.is_jump {
            self.jumps = with(self.jumps, piece.times);
        } else {
            self.plain = with(self.plain, piece.times);
        }
    }
}

/// Counts a piece of a place.
fn add_piece(all: &mut Vec<Times>, piece: Piece) -> Result<(), Failure> {
    for times in all.iter_mut() {
        if times.place == piece.place {
            times.add(piece);
            return Ok(());
        }
    }
    let mut times = Times {
        place: piece.place,
        turns: None,
        plain: None,
        jumps: None,
    };
    times.add(piece);
    all.push(times)?;
    Ok(())
}

/// How often each line is run, or each instruction where no text says the code.
pub fn times_of(
    alloc: Global,
    shares: Shares<'_, '_>,
    listing: &Listing,
) -> Result<Vec<Times>, Failure> {
    let mut all = Vec::new(alloc);
    let mut piece: Option<Piece> = None;
    for i in 0..listing.len() {
        if let Some(placed) = listing.get(i) {
            let at = placed.at;
            let times = shares.profile.times(shares.image, at);
            let next = Piece::new(shares.place_at(at), placed.instr, times);
            match piece {
                Some(last) if last.place == next.place => piece = Some(last.with(next)),
                Some(last) => {
                    add_piece(&mut all, last)?;
                    piece = Some(next);
                }
                None => piece = Some(next),
            }
        }
    }
    if let Some(last) = piece {
        add_piece(&mut all, last)?;
    }
    Ok(all)
}

/// How often the line or the instruction of a place is run.
pub fn times_at(all: &[Times], place: usize) -> u64 {
    match all.iter().find(|times| times.place == place) {
        Some(times) => times.all(),
        None => 0,
    }
}
