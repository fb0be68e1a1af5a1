//! Listings, and lines of any length.

use crate::asserts::{assert_same, unwrap};
use crate::farms::answers;
use std::alloc::Global;
use std::process::Abort;

/// Pairs of an input and what is written for it.
const LISTINGS: [(&str, &str); 18] = [
    ("LIST 604F\n", "0 604f ldc -1\nDONE 1\n"),
    ("LIST 2222\n", "NO D1 0\n"),
    ("LIST 202020202020202041\n", "NO D2 0\n"),
    (
        "LIST 204124F2\n",
        "0 2041 ldc 1 least 41\n2 24f2 mint\nDONE 2\n",
    ),
    (
        "LIST 272F2F2F2F2F6F40\n",
        "0 272f2f2f2f2f6f40 ldc -2147483648\nDONE 1\n",
    ),
    ("LIST 616F40\n", "0 616f40 ldc 256 least 212040\nDONE 1\n"),
    ("LIST 41F3\n", "NO D3 1\n"),
    ("LIST 24FA\n", "0 24fa move\nDONE 1\n"),
    ("HELLO\n", "NO E1 1\n"),
    ("", ""),
    ("LIST 4\n\nlist 41\n", "NO E1 1\nNO E1 2\nNO E1 3\n"),
    ("LIST 24F2\r\n", "0 24f2 mint\nDONE 1\n"),
    ("LIST 41", "0 41 ldc 1\nDONE 1\n"),
    ("LIST 41\r", "NO E1 1\n"),
    ("\r", "NO E1 1\n"),
    ("LIST \nLIST\nLIST  41\n", "NO E1 1\nNO E1 2\nNO E1 3\n"),
    (
        "LIST 4g\nLIST 0aF1\n",
        "NO E1 1\n0 0a j 10\n1 f1 lb\nDONE 2\n",
    ),
    ("LIST 41 \n LIST 41\n", "NO E1 1\nNO E1 2\n"),
];

#[test]
fn listings(rt: HostRuntime) {
    for (input, output) in LISTINGS.iter() {
        let same = answers(&rt, rt.alloc(), 1, input.as_bytes(), output.as_bytes());
        assert!(rt; same, "{input}");
    }
}

/// A line of this many instructions `ldc 1`, and what ends it.
pub(crate) fn long_line(
    rt: &impl Abort,
    alloc: Global,
    instructions: usize,
    end: &[u8],
) -> Vec<u8> {
    let mut line = unwrap(rt, Vec::from_slice(alloc, b"LIST "));
    for _ in 0..instructions {
        unwrap(rt, line.extend_from_slice(b"41"));
    }
    unwrap(rt, line.extend_from_slice(end));
    line
}

/// Two lines: this many instructions, and one more.
fn two_listings(rt: &impl Abort, alloc: Global, instructions: usize, end: &[u8]) -> Vec<u8> {
    let mut input = long_line(rt, alloc, instructions, end);
    unwrap(rt, input.extend_from_slice(b"LIST 604F\n"));
    input
}

/// The answer to a listing of this many instructions `ldc 1`.
pub(crate) fn long_listing(rt: &impl Abort, alloc: Global, instructions: u32) -> String {
    let mut output = String::new(alloc);
    for at in 0..instructions {
        let line = unwrap(rt, format!(in alloc; "{at} 41 ldc 1\n"));
        unwrap(rt, output.push_str(line.as_str()));
    }
    let last = unwrap(rt, format!(in alloc; "DONE {instructions}\n"));
    unwrap(rt, output.push_str(last.as_str()));
    output
}

/// Each line of the answer to the longest line, and a line behind it.
#[test]
fn the_longest_line(rt: HostRuntime) {
    let input = two_listings(&rt, rt.alloc(), 16_381, b"\r\n");
    assert_same(&rt, &input.len(), &32_779);
    let mut wanted = long_listing(&rt, rt.alloc(), 16_381);
    unwrap(&rt, wanted.push_str("0 604f ldc -1\nDONE 1\n"));
    assert!(rt; answers(&rt, rt.alloc(), 1, &input, wanted.as_bytes()));
}

#[test]
fn a_line_too_long(rt: HostRuntime) {
    let input = two_listings(&rt, rt.alloc(), 16_382, b"\n");
    assert_same(&rt, &input.len(), &32_780);
    let wanted = b"NO E1 1\n0 604f ldc -1\nDONE 1\n";
    assert!(rt; answers(&rt, rt.alloc(), 1, &input, wanted));
}

/// 1,500 listings, each followed by a line that is refused.
fn many_listings(rt: &impl Abort, alloc: Global) -> Vec<u8> {
    let mut input = Vec::new(alloc);
    for _ in 1..1_501u32 {
        unwrap(rt, input.extend_from_slice(b"LIST 604F\nHELLO\n"));
    }
    input
}

fn many_answers(rt: &impl Abort, alloc: Global) -> String {
    let mut output = String::new(alloc);
    for pair in 1..1_501u32 {
        let refused = pair.saturating_mul(2);
        let answers = format!(in alloc; "0 604f ldc -1\nDONE 1\nNO E1 {refused}\n");
        let answers = unwrap(rt, answers);
        unwrap(rt, output.push_str(answers.as_str()));
    }
    output
}

/// An input of 3,000 lines, each second of which is refused.
#[test]
fn many_lines(rt: HostRuntime) {
    let input = many_listings(&rt, rt.alloc());
    let output = many_answers(&rt, rt.alloc());
    assert!(rt; answers(&rt, rt.alloc(), 1, &input, output.as_bytes()));
}
