//! A refusal that comes in the last of many passes.

use crate::asserts::unwrap;
use std::alloc::Global;
use std::process::Abort;
use tpw_debug::SourceText;
use tpw_why::{explain, judge};

/// How many words the worker's loop moves on by one place.
const MOVED: u16 = 464;

/// How many conditional jumps fill the loop.
const JUMPS: u16 = 2686;

/// The header and the row of the loop; then what takes the packet, and what sets the loop's block.
const BEGINNING: [u8; 44] = [
    0x54, 0x50, 0x57, 0x32, 0xff, 0x1f, 0x00, 0x02, 0x08, 0x00, 0x01, 0x00, 0x01, 0x00, 0x01, 0x00,
    0x00, 0x00, 0x0e, 0x00, 0xf1, 0x1f, 0xe0, 0x01, 0x01, 0x00, 0x00, 0x00, 0x00, 0x00, 0x10, 0x24,
    0xf2, 0x54, 0x44, 0xf7, 0x40, 0x21, 0x2d, 0xd8, 0x41, 0x21, 0x2d, 0xd9,
];

/// ldc 0, cj 0.
const JUMP: [u8; 2] = [0x40, 0xa0];

/// The end of the loop and the sending of the result; then ldl 464, ldlp 0, wsub; and the stop.
const ENDING: [u8; 21] = [
    0x21, 0x2d, 0x18, 0x21, 0x2f, 0x2e, 0x45, 0x22, 0xf1, 0x10, 0x24, 0xf2, 0x44, 0xfb, 0x21, 0x2d,
    0x70, 0x10, 0xfa, 0x21, 0xf5,
];

/// The function codes of ldl and stl, in the upper half of a byte.
const LDL: u8 = 0x70;

const STL: u8 = 0xd0;

/// A worker of 8,191 code bytes whose loop moves the words of its workspace on: each pass knows less of one word more.
/// In the last one the last word is no known number any more, and so no number of a word.
fn moving(rt: &impl Abort, alloc: Global) -> Vec<u8> {
    let mut image = unwrap(rt, Vec::from_slice(alloc, &BEGINNING));
    for back in 0..MOVED {
        let to = MOVED - back;
        unwrap(rt, image.extend_from_slice(&local(LDL, to - 1)));
        unwrap(rt, image.extend_from_slice(&local(STL, to)));
    }
    for _ in 0..JUMPS {
        unwrap(rt, image.extend_from_slice(&JUMP));
    }
    unwrap(rt, image.extend_from_slice(&ENDING));
    image
}

/// An instruction of a local word, spelled by three bytes.
fn local(function: u8, word: u16) -> [u8; 3] {
    let [low, high] = word.to_le_bytes();
    [0x20 | high & 15, 0x20 | low >> 4, function | low & 15]
}

/// The refusal comes in the last of 464 passes. The passes before it carry one state, as the verifier's do.
#[test]
fn explains_a_late_refusal(rt: HostRuntime) {
    let image = moving(&rt, rt.alloc());
    let mut output = Vec::new(rt.alloc());
    let verdict = unwrap(&rt, judge(rt.alloc(), &image).map_err(|_| "no verdict"));
    let written = explain(rt.alloc(), &image, &verdict, SourceText::NONE, &mut output);
    unwrap(&rt, written.map_err(|_| "no answer"));
    let text = unwrap(&rt, str::from_utf8(&output).map_err(|_| "no text"));
    assert!(rt; !verdict.is_accepted());
    assert!(rt; text.starts_with("NO S3 8188\n"));
    assert!(rt;
        text.contains("\nfound    in pass 464, on the edge Next of the instruction at 8188\n")
    );
}
