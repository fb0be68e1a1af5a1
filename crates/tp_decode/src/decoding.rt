//! Decoding.

ghost use Rattle.std.specs.Prelude.{◌≡◌, ◌≢◌, ◌≤◌, ◌<◌, ◌-◌, ◌∷◌, ◌++◌, drop, length, replicate, List, vec_len, OnOk};
ghost use Rattle.std.specs.Prelude.{IfOk, IfErr, MatchResult};
ghost use Rattle.tp_decode.specs.declared.fault.DecodeFault.{DecodeFault};
ghost use Rattle.tp_decode.specs.Cutting.{Cut, IsCutting, IsRefused, cutting};
ghost use Rattle.tp_decode.specs.Front.{BeginsWith, Stops};
ghost use Rattle.tp_decode.specs.Listings.{cut_of, Gives};

use crate::fault::{DecodeCode, DecodeFault};
use crate::instr::Instr;
use crate::listing::Listing;
use crate::piece::Piece;
use arrayvec::ArrayVec;
use std::alloc::{AllocError, Global};
use tp_prefix::{PrefixFault, read_one};

/// The most bytes of a code that is decoded.
pub const MAX_CODE: usize = 65_535;

/// The instructions that a code is cut into, or why it has no cutting: the refusal at the lowest address, or Memory.
pub fn decode(alloc: Global, code: &[u8]) -> Result<Listing, DecodeFault>
    requires { length code.now ≤ MAX_CODE }
    ensures cutting { IfOk result (λ listing. IsCutting code.now listing) }
    ensures only { (cuts : List Cut) → IsCutting code.now cuts →
        MatchResult result (λ listing. listing ≡ cuts) (λ e. e ≡ DecodeFault.Memory) }
    ensures refused { IfErr result (λ e. e ≢ DecodeFault.Memory → IsRefused code.now e) }
    ensures first { (e : DecodeFault) → IsRefused code.now e →
        MatchResult result (λ listing. ⊥) (λ f. f ≢ DecodeFault.Memory → f ≡ e) }
    ensures exact { Gives result (cutting code.now) }
{
    cut(alloc, code)
}

/// The same, as the function that the cutting is.
fn cut(alloc: Global, code: &[u8]) -> Result<Listing, DecodeFault>
    requires { length code.now ≤ MAX_CODE }
    ensures { Gives result (cutting code.now) }
{
    let mut starts = Vec::with_capacity(alloc, code.len())?;
    let mut numbers = Vec::with_capacity(alloc, code.len())?;
    let mut pieces = Vec::with_capacity(alloc, code.len())?;
    let mut at = 0;
    while at < code.len() {
        let piece = piece_at(code, at)?;
        let next = at + piece.spelling.len();
        number(&mut numbers, starts.len() as u16, next)?;
        starts.push(at as u32)?;
        pieces.push(piece)?;
        at = next;
    }
    Ok(Listing::new(starts, numbers, pieces))
}

/// Numbers an instruction that ends before an address: its first byte has the number, the others have none.
fn number(numbers: &mut Vec<Option<u16>>, i: u16, next: usize) -> Result<(), AllocError>
    requires { vec_len numbers.old < next }
    ensures { OnOk result
        (numbers.new.items ≡ numbers.old.items ++ Some i ∷ replicate (next - vec_len numbers.old - 1) None) }
{
    numbers.push(Some(i))?;
    numbers.resize(next, None)
}

/// The instruction that is spelled in a code at an address.
fn piece_at(code: &[u8], at: usize) -> Result<Piece, DecodeFault>
    requires { at < length code.now }
    ensures { MatchResult result (λ piece. BeginsWith (drop at code.now) (cut_of piece))
        (λ e. Stops (drop at code.now) at e) }
{
    let spelled = match read_one(code, at) {
        Ok(spelled) => spelled,
        Err(PrefixFault::D1(place)) => return Err(refused(DecodeCode::D1, place)),
        Err(PrefixFault::D2(place)) => return Err(refused(DecodeCode::D2, place)),
    };
    let Some(instr) = Instr::of(spelled.function, spelled.operand) else {
        return Err(refused(DecodeCode::D3, at));
    };
    Ok(Piece {
        spelling: copied(&code[at..spelled.next]),
        instr,
    })
}

fn refused(code: DecodeCode, place: usize) -> DecodeFault
    ensures { result ≡ DecodeFault.Refused code place }
{
    DecodeFault::Refused { code, place }
}

/// A spelling by itself.
fn copied(spelling: &[u8]) -> ArrayVec<u8, 8>
    requires { length spelling.now ≤ 8 }
    ensures { result.items ≡ spelling.now }
{
    let mut bytes = ArrayVec::new();
    for byte in spelling {
        bytes.push(*byte);
    }
    bytes
}
