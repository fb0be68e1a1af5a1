//! Listings.

ghost use Rattle.std.specs.Prelude.{◌≡◌, ◌<◌, ◌+◌, ◌==◌, length, IfOk, slice_get, string_bytes};
ghost use Rattle.std.specs.Option.{option_map};
ghost use Rattle.std.specs.List.{AllByRecursion};
ghost use Rattle.tp_decode.specs.Cutting.{IsSpelled, starts_from, placed_from, index_from, cut_at};
ghost use Rattle.tp_decode.specs.Lines.{lines_from};
ghost use Rattle.tp_decode.specs.Listings.{IsListing, cuts_of};

use crate::instr::Instr;
use crate::lines::line;
use crate::piece::Piece;
use crate::placed::Placed;
use std::alloc::{AllocError, Global};
use std::marker::Model;

/// A code as the instructions that are spelled in it: a contract sees the list of these, each with its bytes.
#[derive(Drop)]
pub struct Listing {
    starts: Vec<u32>,
    /// For each byte of the code, the number of the instruction that starts there.
    numbers: Vec<Option<u16>>,
    pieces: Vec<Piece>,
}

impl Model for Listing {
    ghost use Rattle.std.specs.Prelude.{List};
    ghost use Rattle.tp_decode.specs.Cutting.{Cut};
    ghost use Rattle.tp_decode.specs.Listings.{cuts_of, IsListing};

    ghost Value = { List Cut };

    ghost view = { λ l. cuts_of l.pieces.items };

    ghost invariant = { λ l. IsListing l.starts.items l.numbers.items l.pieces.items };
}

impl Listing {
    pub(crate) fn new(starts: Vec<u32>, numbers: Vec<Option<u16>>, pieces: Vec<Piece>) -> Listing
        requires { IsListing starts.items numbers.items pieces.items }
        ensures { result ≡ cuts_of pieces.items }
    {
        Listing {
            starts,
            numbers,
            pieces,
        }
    }

    /// A law: the bytes of each instruction spell it.
    pub fn law_is_spelled(&self)
        ensures { AllByRecursion IsSpelled self.now }
    {
        let _ = &self.starts;
    }

    /// How many instructions there are.
    pub fn len(&self) -> usize
        ensures { result ≡ length self.now }
    {
        self.pieces.len()
    }

    pub fn is_empty(&self) -> bool
        ensures { result ≡ (length self.now == 0) }
    {
        self.pieces.is_empty()
    }

    /// The addresses of the instructions, rising from 0.
    pub fn starts(&self) -> &[u32]
        ensures { result.now ≡ starts_from 0 self.now }
    {
        &self.starts
    }

    /// Instruction i, counted from 0, with its place. It takes constant time, as `index_of`, `at` and `next` do.
    pub fn get(&self, i: usize) -> Option<Placed>
        ensures { result ≡ slice_get (placed_from 0 self.now) i }
    {
        let piece = self.pieces.get(i)?;
        let at = self.starts[i] as usize;
        Some(Placed {
            at,
            instr: piece.instr,
            next: at + piece.spelling.len(),
        })
    }

    /// The number of the instruction at an address, counted from 0; none inside a spelling or past the end.
    pub fn index_of(&self, addr: usize) -> Option<usize>
        ensures { result ≡ index_from 0 self.now addr }
    {
        let number = (*self.numbers.get(addr)?)?;
        Some(usize::from(number))
    }

    /// The instruction at an address, with its place.
    #[tactic(auto, using(crate::proofs::NumberLemmas::place_by_number))]
    fn placed(&self, addr: usize) -> Option<Placed>
        ensures { result ≡ option_map (λ cut. record { at = addr; instr = cut.instr; next = addr + length cut.bytes })
            (cut_at self.now addr) }
    {
        self.index_of(addr).and_then(|i| self.get(i))
    }

    /// The instruction at an address; none inside a spelling or past the end.
    pub fn at(&self, addr: usize) -> Option<Instr>
        ensures { result ≡ option_map (λ cut. cut.instr) (cut_at self.now addr) }
    {
        self.placed(addr).map(|placed| placed.instr)
    }

    /// The address behind the instruction at an address.
    pub fn next(&self, addr: usize) -> Option<usize>
        ensures { result ≡ option_map (λ cut. addr + length cut.bytes) (cut_at self.now addr) }
    {
        self.placed(addr).map(|placed| placed.next)
    }

    /// The listing line of instruction i, counted from 0, without its line feed: the address in decimal, the bytes in
    /// hexadecimal, the name with the operand in signed decimal; and ` least ` with the canonical spelling where that
    /// is another.
    pub fn text(&self, alloc: Global, i: usize) -> Result<String, AllocError>
        requires { i < length self.now }
        ensures { IfOk result (λ text. slice_get (lines_from 0 self.now) i ≡ Some (string_bytes text)) }
    {
        line(alloc, self.starts[i], &self.pieces[i])
    }
}
