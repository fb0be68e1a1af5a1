//! Answers to texts.

use crate::asserts::{assert_same, unwrap};
use crate::texts::*;
use std::alloc::Global;
use std::process::Abort;
use test_samples::*;
use tp_accept::{Accepted, Refusal, accept};

/// Fails unless a text, the one of a table's row, has this answer.
fn assert_answered(rt: &impl Abort, alloc: Global, text: &[u8], expected: &str, row: usize) {
    let answered = answer(rt, alloc, text);
    assert_eq!(rt; answered.as_str(), expected, "row {row}");
}

/// Images, and the answers.
const IMAGES: [(&[u8], &str); 20] = [
    (INCREMENT, "YES 16 16"),
    (SUM_TO_TEN, "YES 27 99"),
    (ONE_TURN, "YES 27 27"),
    (SUM_TO_TEN_THOUSAND, "YES 30 80022"),
    (ONE_TURN_TOO_MANY, "NO J6 0"),
    (NESTED_TOO_LONG, "NO B1 0"),
    (TEN_TIMES_TEN_THOUSAND, "YES 35 400130"),
    (READS_AFTER_JUMP, "NO S1 8"),
    (JUMPS_INTO_SPELLING, "NO J1 7"),
    (SENDS_TWICE, "NO S9 15"),
    (LOADS_ANY_WORD, "NO S3 8"),
    (PICKS_A_WORD, "YES 21 21"),
    (READS_BELOW_WPTR, "NO S4 6"),
    (FIVE_UNLESS_ZERO, "YES 17 17"),
    (SHIFTS_BY_ITS_PACKET, "NO S10 8"),
    (STORES_BY_TWO_WAYS, "YES 22 20"),
    (MOVES_A_WORD, "YES 19 19"),
    (MOVES_IN_VERSION_1, "NO S11 10"),
    (MOVES_ONTO_ITSELF, "NO S3 9"),
    (INCREMENT_2, "YES 16 16"),
];

#[test]
fn answers_images(rt: HostRuntime) {
    for (i, (text, expected)) in IMAGES.iter().enumerate() {
        assert_answered(&rt, rt.alloc(), text, expected, i);
    }
}

/// An image with bytes changed: the image, the place of the first, the bytes, and the answer.
type Change = (&'static [u8], usize, &'static [u8], &'static str);

const CHANGED_IMAGES: [Change; 17] = [
    (INCREMENT, 4, &[0x4D, 0x1F], "NO F3 4"),
    (INCREMENT, 6, &[0, 2], "NO F4 6"),
    (INCREMENT_2, 6, &[0, 2], "YES 16 16"),
    (INCREMENT_2, 6, &[1, 2], "NO F4 6"),
    (INCREMENT, 8, &[4], "NO F5 8"),
    (INCREMENT, 10, &[65], "NO F6 10"),
    (INCREMENT, 12, &[0], "NO F7 12"),
    (INCREMENT, 14, &[17], "NO F8 14"),
    (MOVES_A_WORD, 16, &[17], "NO F10 16"),
    // a jump out of the loop, and a store to its count
    (SUM_TO_TEN, 42, &[0x06], "NO J4 14"),
    (SUM_TO_TEN, 43, &[0xD3], "NO S5 15"),
    // ajw -8, ldc 0 for ldlp 0, ldnlp 3 for ldnlp 4, ldc 8 for ldc 4
    (INCREMENT, 16, &[0xB8], "NO S6 0"),
    // cj over an ajw: where the two ways meet Wptr differs
    (INCREMENT, 23, &[0xA1, 0xB1], "NO S6 9"),
    (INCREMENT, 16, &[0x40], "NO S2 5"),
    (INCREMENT, 19, &[0x53], "NO S8 5"),
    (INCREMENT, 20, &[0x48], "NO S7 5"),
    (INCREMENT, 3, &[0x33], "NO F1 0"),
];

#[test]
fn answers_changed_images(rt: HostRuntime) {
    for (i, (text, at, bytes, expected)) in CHANGED_IMAGES.iter().enumerate() {
        let text = changed(&rt, rt.alloc(), text, *at, bytes);
        assert_answered(&rt, rt.alloc(), &text, expected, i);
    }
}

/// Codes behind a header, and the answers.
const SHORT_CODES: [(&[u8], &str); 7] = [
    (b"\x22\x22", "NO D1 0"),
    (b"\x20\x20\x20\x20\x20\x20\x20\x20\x41", "NO D2 0"),
    (b"\x41\xF3", "NO D3 1"),
    (b"\x60\x0D", "NO J2 0"),
    (b"\x41\x60\x0D", "NO J3 1"),
    (b"\x22\xF1", "NO J7 0"),
    (b"\x41", "NO J5 0"),
];

#[test]
fn answers_short_codes(rt: HostRuntime) {
    for (i, (code, expected)) in SHORT_CODES.iter().enumerate() {
        let text = with_code(&rt, rt.alloc(), code);
        assert_answered(&rt, rt.alloc(), &text, expected, i);
    }
}

/// The answer to the first this many bytes of an image that is longer.
fn answer_to_a_beginning(rt: &impl Abort, alloc: Global, bytes: usize) -> String {
    if bytes < 4 {
        unwrap(rt, format!(in alloc; "NO F1 0"))
    } else {
        unwrap(rt, format!(in alloc; "NO F2 {bytes}"))
    }
}

#[test]
fn answers_beginnings(rt: HostRuntime) {
    for n in 0..NESTED_TOO_LONG.len() {
        let expected = answer_to_a_beginning(&rt, rt.alloc(), n);
        assert_answered(&rt, rt.alloc(), &NESTED_TOO_LONG[..n], &expected, n);
    }
    assert_answered(&rt, rt.alloc(), &INCREMENT[..16], "NO F2 16", 16);
}

#[test]
fn answers_a_byte_too_many(rt: HostRuntime) {
    let mut text = unwrap(&rt, Vec::from_slice(rt.alloc(), INCREMENT));
    unwrap(&rt, text.push(0));
    assert_answered(&rt, rt.alloc(), &text, "NO F9 32", 0);
}

#[test]
fn answers_long_codes(rt: HostRuntime) {
    let first = many_jumps(&rt, rt.alloc(), NINE_HUNDRED, 900);
    assert_answered(&rt, rt.alloc(), &first, "YES 1813 1813", 0);
    let second = many_jumps(&rt, rt.alloc(), FOUR_THOUSAND, 4_000);
    assert_answered(&rt, rt.alloc(), &second, "YES 8013 8013", 1);
}

#[test]
fn gives_the_parts(rt: HostRuntime) {
    let text = unwrap(&rt, Vec::from_slice(rt.alloc(), INCREMENT));
    let accepted = unwrap(&rt, accept(rt.alloc(), text));
    assert_increment(&rt, &accepted);
}

/// Fails unless an accepted image has the parts of the increment.
fn assert_increment(rt: &impl Abort, accepted: &Accepted) {
    assert_same(
        rt,
        &(accepted.packet_bytes(), accepted.result_bytes()),
        &(4, 4),
    );
    assert_same(rt, &accepted.code(), &&INCREMENT[16..]);
    assert_same(rt, &accepted.image().workspace, &12);
}

/// A refusal's code as it is printed, and its place.
fn parts_of(rt: &impl Abort, alloc: Global, refusal: &Refusal) -> (String, usize) {
    let code = unwrap(rt, refusal.code().ok_or("a code"));
    (unwrap(rt, format!(in alloc; "{code}")), refusal.place())
}

#[test]
fn gives_the_parts_of_a_refusal(rt: HostRuntime) {
    let text = unwrap(&rt, Vec::from_slice(rt.alloc(), &INCREMENT[..9]));
    let answered = accept(rt.alloc(), text);
    let refusal = unwrap(&rt, answered.err().ok_or("a refusal"));
    let (code, place) = parts_of(&rt, rt.alloc(), &refusal);
    assert_same(&rt, &(code.as_str(), place), &("F2", 9));
}

#[test]
fn reports_out_of_memory(rt: HostRuntime) {
    let refusal = Refusal::Memory;
    assert_same(&rt, &(refusal.code(), refusal.place()), &(None, 0));
    assert_same(
        &rt,
        &unwrap(&rt, format!(in rt.alloc(); "{refusal}")).as_str(),
        &"out of memory",
    );
}
