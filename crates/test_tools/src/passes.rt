//! The first refusal of the passes, and what is known then.

ghost use Rattle.std.specs.Prelude.{◌<◌, ◌≤◌};

use crate::asserts::{assert_same, unwrap};
use std::alloc::Global;
use std::process::Abort;
use test_samples::*;
use tp_check::state_at;
use tp_decode::decode;
use tp_flow::check_flow;
use tp_image::read_image;
use tp_state::Cell;
use tpw_why::{FirstRefusal, first_refusal};

/// The first refusal of the passes over an image's code.
fn found(rt: &(impl Abort + AllocGlobal), bytes: &[u8]) -> Option<FirstRefusal> {
    let image = read_image(rt.alloc(), bytes).expect(rt, "an image");
    let listing = decode(rt.alloc(), &image.code).expect(rt, "a listing");
    let nest = check_flow(&image, &listing).expect(rt, "a nest");
    first_refusal(rt.alloc(), &image, &listing, &nest).expect(rt, "memory")
}

#[test]
fn refuses_in_the_first_pass(rt: HostRuntime) {
    let found = found(&rt, READS_AFTER_JUMP).expect(&rt, "a refusal");
    assert_same(&rt, &found.passes, &0);
    assert!(rt; state_at(&found.table, 0).is_some());
    assert!(rt; state_at(&found.table, 8).is_some());
    assert!(rt; state_at(&found.table, 9).is_none());
}

#[test]
fn finds_nothing_where_nothing_is_refused(rt: HostRuntime) {
    assert!(rt; found(&rt, INCREMENT).is_none());
}

/// A header of version 2 but for its code bytes: 32 words, Wptr at word 8, a row.
const HEADER: [u8; 12] = [
    0x20, 0x00, 0x08, 0x00, 0x01, 0x00, 0x01, 0x00, 0x01, 0x00, 0x00, 0x00,
];

/// The receiving of the packet, and the start of the loop's block: ldc 0, stl 21, ldc 1, stl 22.
const BEGINNING: [u8; 12] = [
    0x10, 0x24, 0xF2, 0x54, 0x44, 0xF7, 0x40, 0x21, 0xD5, 0x41, 0x21, 0xD6,
];

/// Where the loop begins.
const HEAD: u8 = 12;

/// The loop's block.
const BLOCK: u8 = 21;

/// The sending of the result, before a word is taken as a number.
const SENDING: [u8; 5] = [0x10, 0x24, 0xF2, 0x44, 0xFB];

/// ldlp 0, wsub, stopp.
const ENDING: [u8; 4] = [0x10, 0xFA, 0x21, 0xF5];

/// The function codes of ldlp, ldc, ldl and stl, in the upper half of a byte.
const LDLP: u8 = 0x10;

const LDC: u8 = 0x40;

const LDL: u8 = 0x70;

const STL: u8 = 0xD0;

/// An instruction with an operand below 256, spelled by two bytes.
fn spelled(function: u8, operand: u8) -> [u8; 2] {
    [0x20 | operand >> 4, function | operand & 15]
}

/// A loop that moves this many words of its workspace, from the first on, to the next place, and then takes the last one
/// that was written as the number of a word. What the packet has brought goes one word further with each pass.
fn moving(rt: &impl Abort, alloc: Global, words: u8) -> Vec<u8>
    requires some { 0 < words }
    requires few { words ≤ 20 }
{
    let body = 4 * words;
    let lend = HEAD + body + 4;
    let mut image = unwrap(rt, Vec::from_slice(alloc, b"TPW2"));
    unwrap(rt, image.extend_from_slice(&[lend + 2 + 11, 0]));
    unwrap(rt, image.extend_from_slice(&HEADER));
    for field in [HEAD, lend, 8 + BLOCK, 1, 0, 0] {
        unwrap(rt, image.extend_from_slice(&[field, 0]));
    }
    unwrap(rt, image.extend_from_slice(&BEGINNING));
    for back in 0..words {
        let to = words - back;
        unwrap(rt, image.extend_from_slice(&spelled(LDL, to - 1)));
        unwrap(rt, image.extend_from_slice(&spelled(STL, to)));
    }
    unwrap(rt, image.extend_from_slice(&spelled(LDLP, BLOCK)));
    unwrap(rt, image.extend_from_slice(&spelled(LDC, body + 6)));
    unwrap(rt, image.extend_from_slice(&[0x22, 0xF1]));
    unwrap(rt, image.extend_from_slice(&SENDING));
    unwrap(rt, image.extend_from_slice(&spelled(LDL, words)));
    unwrap(rt, image.extend_from_slice(&ENDING));
    image
}

/// The pass that refuses has the number of the last word that is written: it knows no longer what is there.
#[test]
fn refuses_in_each_of_many_passes(rt: HostRuntime) {
    for words in 1..21 {
        let image = moving(&rt, rt.alloc(), words);
        let found = found(&rt, &image).expect(&rt, "a refusal");
        assert_eq!(rt;
            found.passes.checked_add(1),
            Some(u128::from(words)),
            "{words} words"
        );
        let head = state_at(&found.table, usize::from(HEAD)).expect(
            &rt,
            "a state at the loop's head",
        );
        assert_eq!(rt;
            head.cells.get(usize::from(words) + 8),
            Cell::Any,
            "{words} words"
        );
    }
}
