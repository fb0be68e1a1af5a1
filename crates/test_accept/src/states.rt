//! Each call of `tp_state` that takes memory once, with ample memory, and codes that are refused on their way.

ghost use Rattle.std.specs.Prelude.{◌≡◌, length};
ghost use Rattle.tp_flow.specs.NestRanges.{ranges};
ghost use Rattle.tp_state.specs.Conditions.{HasGoodLoops};

use crate::asserts::{assert_same, unwrap};
use crate::images::*;
use crate::reading::read;
use std::process::Abort;
use test_samples::*;
use tp_decode::{Instr, Listing};
use tp_flow::{Edge, Nest, check_flow, edges};
use tp_image::{Image, read_image};
use tp_state::{Cell, Cells, Kind, State, StateCode, StateFault, after};

/// The refusal of the first instruction that is refused, from the first on, along first edges.
fn refusal(rt: &(impl Abort + AllocGlobal), bytes: &[u8]) -> Option<StateFault> {
    let (image, listing) = read(rt, bytes);
    let nest = check_flow(&image, &listing).expect(rt, "a nest");
    first_refusal(rt, &image, &listing, &nest)
}

fn first_refusal(
    rt: &(impl Abort + AllocGlobal),
    image: &Image,
    listing: &Listing,
    nest: &Nest,
) -> Option<StateFault>
    requires good { HasGoodLoops image.now }
    requires nest { nest.now ≡ ranges image.now.loops }
{
    let mut state = State::entry(rt.alloc(), image).expect(rt, "a state");
    for start in listing.starts() {
        let at = *start as usize;
        let instr = listing.at(at).expect(rt, "an instruction");
        let next = listing.next(at).expect(rt, "an address");
        let edge = edges(instr).first().copied().unwrap_or(Edge::Next);
        match after(rt.alloc(), &state, at, next, instr, edge, image, nest) {
            Ok(known) => state = known,
            Err(fault) => return Some(fault),
        }
    }
    None
}

/// A refusal with its code and place.
pub(crate) fn refused(code: StateCode, place: usize) -> Option<StateFault> {
    Some(StateFault::Refused { code, place })
}

/// That a code is refused so on its way, or passes.
fn assert_first_refusal(
    rt: &(impl Abort + AllocGlobal),
    bytes: &[u8],
    expected: Option<StateFault>,
) {
    assert_same(rt, &refusal(rt, bytes), &expected);
}

#[test]
fn judges_small_codes(rt: HostRuntime) {
    let codes: [(&[u8], Option<StateFault>); 7] = [
        (READS_AFTER_JUMP, refused(StateCode::S1, 8)),
        (RECEIVES_TWO_WORDS, refused(StateCode::S7, 5)),
        (SENDS_TWICE, refused(StateCode::S9, 15)),
        (LOADS_ANY_WORD, refused(StateCode::S3, 8)),
        (MOVES_IN_VERSION_1, refused(StateCode::S11, 10)),
        (PICKS_A_WORD, None),
        (MOVES_A_WORD, None),
    ];
    for (bytes, expected) in codes {
        assert_first_refusal(&rt, bytes, expected);
    }
}

/// Of a code that is refused by its states a code and an address are printed.
#[test]
fn prints_faults(rt: HostRuntime) {
    for (code, text) in [
        (StateCode::S1, "S1 at 14"),
        (StateCode::S2, "S2 at 14"),
        (StateCode::S3, "S3 at 14"),
        (StateCode::S4, "S4 at 14"),
        (StateCode::S5, "S5 at 14"),
        (StateCode::S6, "S6 at 14"),
        (StateCode::S7, "S7 at 14"),
        (StateCode::S8, "S8 at 14"),
        (StateCode::S9, "S9 at 14"),
        (StateCode::S10, "S10 at 14"),
        (StateCode::S11, "S11 at 14"),
    ] {
        let fault = StateFault::Refused { code, place: 14 };
        let printed = unwrap(&rt, format!(in rt.alloc(); "{fault}"));
        assert_same(&rt, &printed.as_str(), &text);
    }
    let memory = StateFault::Memory;
    let printed = unwrap(&rt, format!(in rt.alloc(); "{memory}"));
    assert_same(&rt, &printed.as_str(), &"out of memory");
}

/// A copy of the state at the start of a worker.
fn copy_of_the_start(rt: &(impl Abort + AllocGlobal), bytes: &[u8]) -> State {
    let image = read_image(rt.alloc(), bytes).expect(rt, "an image");
    let state = State::entry(rt.alloc(), &image).expect(rt, "a state");
    state.copy_of(rt.alloc()).expect(rt, "a copy")
}

#[test]
fn begins_with_the_first_words(rt: HostRuntime) {
    let copy = copy_of_the_start(&rt, MOVES_A_WORD);
    let cells = (copy.cells.get(0), copy.cells.get(15), copy.cells.get(16));
    let expected = (Cell::Known(42), Cell::Known(0), Cell::Undef);
    assert_same(&rt, &(copy.wptr, cells), &(8, expected));
}

/// The abstract values of a workspace of 12 words.
type Words = [Cell; 12];

/// The abstract state of a worker whose packet has come, with Wptr at word 8.
fn with_words(rt: &(impl Abort + AllocGlobal), a: Kind, words: &Words) -> State
    ensures wptr { result.wptr ≡ 8 }
    ensures sized { length result.cells ≡ 12 }
{
    State {
        wptr: 8,
        a,
        b: Kind::Undef,
        c: Kind::Undef,
        phase: 1,
        cells: Cells::from_slice(rt.alloc(), words).expect(rt, "cells"),
    }
}

/// That after an instruction of the increment Areg and words are these, where they were those before it.
fn assert_after(
    rt: &(impl Abort + AllocGlobal),
    at: usize,
    instr: Instr,
    (a, words): (Kind, &Words),
    (a_after, words_after): (Kind, &Words),
) {
    let (image, listing) = read(rt, INCREMENT);
    let nest = check_flow(&image, &listing).expect(rt, "a nest");
    assert!(rt; image.workspace == 12 && at < 16);
    let before = with_words(rt, a, words);
    let known = after(
        rt.alloc(),
        &before,
        at,
        at + 1,
        instr,
        Edge::Next,
        &image,
        &nest,
    );
    let known = known.expect(rt, "a state");
    let cells = known.cells.to_vec(rt.alloc()).expect(rt, "a list");
    assert_same(rt, &known.a, &a_after);
    assert_eq!(rt; cells.as_slice(), words_after.as_slice());
}

/// States are made by hand: ldl 0 reads word 8, and stl 0 writes it.
#[test]
fn takes_states_made_by_hand(rt: HostRuntime) {
    let mut words = [Cell::Known(0); 12];
    words[8] = Cell::Known(41);
    words[3] = Cell::Undef;
    let loaded = (Kind::Int(41, 41), &words);
    assert_after(&rt, 6, Instr::Ldl(0), (Kind::Undef, &words), loaded);
    let mut written = words;
    written[8] = Cell::Any;
    let stored = (Kind::Undef, &written);
    assert_after(&rt, 8, Instr::Stl(0), (Kind::Int(0, 9), &words), stored);
}
