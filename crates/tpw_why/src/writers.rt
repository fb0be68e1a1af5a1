//! Which instructions wrote a word last.

use crate::known::KnownRegister;
use crate::ways::Way;
use std::alloc::{AllocError, Global};
use std::fmt;
use tp_check::state_at;
use tp_decode::{Instr, Placed};
use tp_flow::{Edge, Nest};
use tp_image::Image;
use tp_state::{Kind, State};
use tp_step::profile::{FRAME_WORDS, WORD_BYTES};

/// The effect of an instruction on a word.
#[derive(Clone, Copy, Debug, PartialEq, Eq)]
pub(crate) enum Wrote {
    /// It stored what is known of a register.
    Stored(Kind),
    /// It stored that in this word, or in another.
    MayHaveStored(Kind),
    /// It stored a byte in this word, or in another.
    Byte,
    /// It received the packet there.
    Received,
    /// It copied a word there, or may have.
    Copied,
    /// It gave way, which leaves the words below Wptr undefined.
    GaveWay,
    /// It began another turn of the loop whose block has the word.
    Turned,
    /// It ended the loop whose block has the word.
    Ended,
}

impl fmt::Display for Wrote {
    fn fmt<W: fmt::Write>(&self, f: &mut fmt::Formatter<W>) -> fmt::Result {
        match self {
            Wrote::Stored(kind @ (Kind::Ptr(_, _) | Kind::BytePtr(_, _))) => {
                let known = KnownRegister(*kind);
                write!(f, "{known}; a word does not keep that it is an address")
            }
            Wrote::Stored(kind) => {
                let known = KnownRegister(*kind);
                write!(f, "{known}")
            }
            Wrote::MayHaveStored(kind) => {
                let known = KnownRegister(*kind);
                write!(f, "{known}, in this word or in another")
            }
            Wrote::Byte => f.write_str("a byte of this word or of another"),
            Wrote::Received => f.write_str("a word of the packet"),
            Wrote::Copied => f.write_str("a copy of another word"),
            Wrote::GaveWay => f.write_str("left undefined, as the five words below Wptr are"),
            Wrote::Turned => f.write_str("what the next turn begins with"),
            Wrote::Ended => f.write_str("left undefined, as a loop's block is after its last turn"),
        }
    }
}

/// Whether a word is one from the first to the last, or of the `more` behind that.
fn is_among(word: usize, first: i64, last: i64, more: i64) -> bool {
    match i64::try_from(word) {
        Ok(word) => first <= word && word <= last.saturating_add(more),
        Err(_) => false,
    }
}

/// Whether a word is one of the five below Wptr.
fn is_below(state: &State, word: usize) -> bool {
    let wptr = i64::from(state.wptr);
    is_among(word, wptr - i64::from(FRAME_WORDS), wptr, -1)
}

/// The effect on a word of a store of a register to a place.
fn stored_at(place: Kind, further: i32, value: Kind, word: usize) -> Option<Wrote> {
    let Kind::Ptr(first, last) = place else {
        return None;
    };
    let from = i64::from(first) + i64::from(further);
    let to = i64::from(last) + i64::from(further);
    if !is_among(word, from, to, 0) {
        None
    } else if from == to {
        Some(Wrote::Stored(value))
    } else {
        Some(Wrote::MayHaveStored(value))
    }
}

/// The effect of a store of a byte on a word.
fn byte_at(place: Kind, word: usize) -> Option<Wrote> {
    let (first, last) = match place {
        Kind::Ptr(first, last) => (first, last),
        Kind::BytePtr(first, last) => (first / WORD_BYTES, last / WORD_BYTES),
        Kind::Undef | Kind::Int(_, _) => return None,
    };
    is_among(word, i64::from(first), i64::from(last), 0).then_some(Wrote::Byte)
}

/// The effect on a word of a message or a copy to a place, of a number of words.
fn block_at(place: Kind, words: i64, wrote: Wrote, word: usize) -> Option<Wrote> {
    let Kind::Ptr(first, last) = place else {
        return None;
    };
    is_among(
        word,
        i64::from(first),
        i64::from(last),
        words.saturating_sub(1),
    )
    .then_some(wrote)
}

/// The effect of a `lend` on a word.
fn turned(image: &Image, nest: &Nest, at: usize, edge: Edge, word: usize) -> Option<Wrote> {
    let row = image.loops.get(nest.lend_row(at)?)?;
    let control = i64::from(row.control);
    if !is_among(word, control, control, 1) {
        None
    } else if edge == Edge::Back {
        Some(Wrote::Turned)
    } else {
        Some(Wrote::Ended)
    }
}

/// The words that a number of bytes has at most.
fn words_of(bytes: Kind) -> i64 {
    match bytes {
        Kind::Int(_, high) => i64::from(high) / i64::from(WORD_BYTES),
        _ => 0,
    }
}

/// The effect of an instruction on a word on an edge, from the state before it; none where it leaves it as it is.
pub(crate) fn effect_on(
    image: &Image,
    nest: &Nest,
    from: Placed,
    edge: Edge,
    state: &State,
    word: usize,
) -> Option<Wrote> {
    let gave_way = is_below(state, word).then_some(Wrote::GaveWay);
    match from.instr {
        Instr::Stl(n) => {
            let to = i64::from(state.wptr) + i64::from(n);
            is_among(word, to, to, 0).then_some(Wrote::Stored(state.a))
        }
        Instr::Stnl(n) => stored_at(state.a, n, state.b, word),
        Instr::Sb => byte_at(state.a, word),
        Instr::MoveBytes => block_at(state.b, words_of(state.a), Wrote::Copied, word),
        Instr::Input => {
            gave_way.or(block_at(state.c, i64::from(image.packet), Wrote::Received, word))
        }
        Instr::Lend => turned(image, nest, from.at, edge, word).or(gave_way),
        Instr::Jump(_) | Instr::Output => gave_way,
        _ => None,
    }
}

/// A way along an edge, and what it does to a word.
#[derive(Clone, Copy)]
pub(crate) struct Passage {
    pub(crate) way: Way,
    /// None where it leaves the word as it is.
    pub(crate) wrote: Option<Wrote>,
}

/// The effect of each way on a word.
pub(crate) fn passages_of(
    alloc: Global,
    image: &Image,
    nest: &Nest,
    table: &[Option<State>],
    ways: &[Way],
    word: usize,
) -> Result<Vec<Passage>, AllocError> {
    let mut passages = Vec::with_capacity(alloc, ways.len())?;
    for way in ways {
        let wrote = match state_at(table, way.from.at) {
            Some(state) => effect_on(image, nest, way.from, way.edge, state, word),
            None => None,
        };
        passages.push(Passage { way: *way, wrote })?;
    }
    Ok(passages)
}

/// Marks each address from which an edge that leaves the word as it is leads to a marked one. Whether there is one
/// more.
fn mark_before(passages: &[Passage], marks: &mut [bool]) -> bool {
    let mut has_more = false;
    for passage in passages.iter().rev() {
        if passage.wrote.is_none() && marks.get(passage.way.to) == Some(&true) {
            if let Some(mark) = marks.get_mut(passage.way.from.at) {
                has_more = has_more || !*mark;
                *mark = true;
            }
        }
    }
    has_more
}

/// Marks the addresses, below `places`, at which the word has the value that it has at one of them.
pub(crate) fn same_before(
    alloc: Global,
    places: usize,
    passages: &[Passage],
    at: usize,
) -> Result<Vec<bool>, AllocError> {
    let mut marks = Vec::new(alloc);
    marks.resize(places, false)?;
    if let Some(mark) = marks.get_mut(at) {
        *mark = true;
    }
    for _ in 0..places {
        if !mark_before(passages, &mut marks) {
            return Ok(marks);
        }
    }
    Ok(marks)
}
