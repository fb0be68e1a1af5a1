//! Images, and the runs of packets.

use crate::asserts::unwrap;
use crate::cases::{Case, RUNS, VERDICTS};
use crate::farms::{answers, opened, push_line, served};
use std::alloc::Global;
use std::process::Abort;
use test_samples::INCREMENT;

/// The lines that open a session, give it packets and run them.
fn lines_of(rt: &impl Abort, alloc: Global, case: &Case) -> Vec<u8> {
    let mut input = opened(rt, alloc, case.image);
    for packet in case.packets {
        push_line(rt, &mut input, &["a PACKET ", packet]);
    }
    push_line(rt, &mut input, &["a RUN"]);
    input
}

#[test]
fn packets_are_run(rt: HostRuntime) {
    for case in RUNS.iter() {
        let input = lines_of(&rt, rt.alloc(), case);
        let name = case.name;
        for members in [1, 4] {
            let written = served(&rt, rt.alloc(), members, case.trace, &input);
            assert!(rt; written.as_slice() == case.answers.as_bytes(), "{name}");
        }
    }
}

#[test]
fn images_are_judged(rt: HostRuntime) {
    for (name, image, answer) in VERDICTS.iter() {
        let input = opened(&rt, rt.alloc(), *image);
        assert!(rt;
            answers(&rt, rt.alloc(), 1, &input, answer.as_bytes()),
            "{name}"
        );
    }
}

/// A long image: a head, a pair of instructions this many times, and the end that sends the result.
fn long_image(rt: &impl Abort, alloc: Global, head: &str, times: usize) -> Vec<u8> {
    let mut input = Vec::new(alloc);
    unwrap(rt, input.extend_from_slice(b"a IMAGE "));
    unwrap(rt, input.extend_from_slice(head.as_bytes()));
    for _ in 0..times {
        unwrap(rt, input.extend_from_slice(b"40A0"));
    }
    let end = b"1024F244FB21F5\na PACKET 07000000\na RUN\n";
    unwrap(rt, input.extend_from_slice(end));
    input
}

/// The beginning of a long image, its number of pairs of instructions, and the answer.
const LONG: [(&str, usize, &str); 2] = [
    (
        "5450573115070C0008000100010000001024F25444F7",
        900,
        "YES 1813 1813\nKEPT 0\nR 0 0 1813 07000000\nDONE 1\n",
    ),
    (
        "545057324D1F0C00080001000100000000001024F25444F7",
        4000,
        "YES 8013 8013\nKEPT 0\nR 0 0 8013 07000000\nDONE 1\n",
    ),
];

#[test]
fn long_codes(rt: HostRuntime) {
    for (head, times, wanted) in LONG.iter() {
        let input = long_image(&rt, rt.alloc(), head, *times);
        assert!(rt;
            answers(&rt, rt.alloc(), 1, &input, wanted.as_bytes()),
            "{times}"
        );
    }
}

/// A session of 1,024 packets, and its run.
fn full_batch(rt: &impl Abort, alloc: Global) -> Vec<u8> {
    let mut input = opened(rt, alloc, INCREMENT);
    for _ in 0..1024 {
        push_line(rt, &mut input, &["a PACKET 01000000"]);
    }
    push_line(rt, &mut input, &["a RUN"]);
    input
}

/// 1,024 lines of a number each, between two texts.
fn push_numbers(rt: &impl Abort, alloc: Global, lines: &mut Vec<u8>, before: &str, after: &str) {
    for number in 0u32..1024 {
        let text = unwrap(rt, format!(in alloc; "{number}"));
        push_line(rt, lines, &[before, text.as_str(), after]);
    }
}

fn full_answers(rt: &impl Abort, alloc: Global) -> Vec<u8> {
    let mut wanted = unwrap(rt, Vec::from_slice(alloc, b"YES 16 16\n"));
    push_numbers(rt, alloc, &mut wanted, "KEPT ", "");
    push_numbers(rt, alloc, &mut wanted, "R ", " 0 16 02000000");
    push_line(rt, &mut wanted, &["DONE 1024"]);
    wanted
}

/// The number of members does not show.
#[test]
fn a_full_batch(rt: HostRuntime) {
    let input = full_batch(&rt, rt.alloc());
    let wanted = full_answers(&rt, rt.alloc());
    for members in [1, 3, 64] {
        assert!(rt;
            answers(&rt, rt.alloc(), members, &input, &wanted),
            "{members}"
        );
    }
}
