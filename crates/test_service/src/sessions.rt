//! Several sessions, their order and their limits.

use crate::asserts::unwrap;
use crate::farms::{answers, opened, push_image, push_line, served};
use std::alloc::Global;
use std::process::Abort;
use test_samples::INCREMENT;

/// A line of an input.
enum Line {
    /// It gives a session an image.
    Image(&'static str, &'static [u8]),
    Text(&'static str),
}

/// An input of these lines.
fn input_of(rt: &impl Abort, alloc: Global, lines: &[Line]) -> Vec<u8> {
    let mut input = Vec::new(alloc);
    for line in lines {
        match line {
            Line::Image(session, image) => push_image(rt, alloc, &mut input, *session, *image),
            Line::Text(text) => push_line(rt, &mut input, &[*text]),
        }
    }
    input
}

const TWO_SESSIONS: [Line; 9] = [
    Line::Image("a", INCREMENT),
    Line::Image("b", INCREMENT),
    Line::Text("a PACKET 01000000"),
    Line::Text("b PACKET 02000000"),
    Line::Text("a DROP"),
    Line::Image("a", INCREMENT),
    Line::Text("RUN *"),
    Line::Text("a PACKET 0100"),
    Line::Text("c PACKET 01000000"),
];

#[test]
fn two_sessions(rt: HostRuntime) {
    let input = input_of(&rt, rt.alloc(), &TWO_SESSIONS);
    let wanted = b"YES 16 16\nYES 16 16\nKEPT 0\nKEPT 0\nGONE\nYES 16 16\n\
        OF b\nR 0 0 16 03000000\nDONE 1\nOF a\nDONE 0\nALL 2\nNO P1 8\nNO P2 9\n";
    assert!(rt; answers(&rt, rt.alloc(), 4, &input, wanted));
}

const REPLACED: [Line; 8] = [
    Line::Image("b", INCREMENT),
    Line::Image("a", INCREMENT),
    Line::Text("b PACKET 01000000"),
    Line::Text("a PACKET 05000000"),
    Line::Image("b", INCREMENT),
    Line::Text("a IMAGE 00"),
    Line::Text("RUN *"),
    Line::Text("a RUN"),
];

/// An image that is replaced keeps the session's place, and forgets its packets. An image that is refused changes
/// nothing.
#[test]
fn a_replaced_image(rt: HostRuntime) {
    let input = input_of(&rt, rt.alloc(), &REPLACED);
    let wanted = b"YES 16 16\nYES 16 16\nKEPT 0\nKEPT 0\nYES 16 16\nNO F1 0\n\
        OF b\nDONE 0\nOF a\nR 0 0 16 06000000\nDONE 1\nALL 2\nDONE 0\n";
    assert!(rt; answers(&rt, rt.alloc(), 2, &input, wanted));
}

/// Opens sessions z1 to z64, and then others, of which one is one too many.
fn most_sessions(rt: &impl Abort, alloc: Global) -> Vec<u8> {
    let mut input = Vec::new(alloc);
    for number in 1u32..65 {
        let name = unwrap(rt, format!(in alloc; "z{number}"));
        push_image(rt, alloc, &mut input, name.as_str(), INCREMENT);
    }
    push_line(rt, &mut input, &["z65 IMAGE 00"]);
    push_image(rt, alloc, &mut input, "z64", INCREMENT);
    push_line(rt, &mut input, &["z1 DROP\nz65 IMAGE 00"]);
    input
}

#[test]
fn the_most_sessions(rt: HostRuntime) {
    let input = most_sessions(&rt, rt.alloc());
    let mut wanted = Vec::new(rt.alloc());
    for _ in 1..65 {
        push_line(&rt, &mut wanted, &["YES 16 16"]);
    }
    push_line(&rt, &mut wanted, &["NO E2 65\nYES 16 16\nGONE\nNO F1 0"]);
    assert!(rt; answers(&rt, rt.alloc(), 1, &input, &wanted));
}

/// One packet more than a session keeps, one of another length, and the image again.
fn most_packets(rt: &impl Abort, alloc: Global) -> Vec<u8> {
    let mut input = opened(rt, alloc, INCREMENT);
    for _ in 0..1025 {
        push_line(rt, &mut input, &["a PACKET 01000000"]);
    }
    push_line(rt, &mut input, &["a PACKET 0100000000"]);
    push_image(rt, alloc, &mut input, "a", INCREMENT);
    push_line(rt, &mut input, &["a RUN"]);
    input
}

#[test]
fn the_most_packets(rt: HostRuntime) {
    let input = most_packets(&rt, rt.alloc());
    let written = served(&rt, rt.alloc(), 1, false, &input);
    assert!(rt; written.ends_with(b"KEPT 1023\nNO P3 1026\nNO P1 1027\nYES 16 16\nDONE 0\n"));
}

/// Inputs with lines that are refused, and what is answered.
const REFUSED: [(&str, &str); 9] = [
    ("HELLO\nz RUN\n", "NO E1 1\nNO P2 2\n"),
    ("RUN *\n", "ALL 0\n"),
    ("", ""),
    ("a DROP\n", "NO P2 1\n"),
    ("a PACKET 0\na PACKET 00\n", "NO E1 1\nNO P2 2\n"),
    ("A IMAGE 00\n0 IMAGE 00\n", "NO E1 1\nNO F1 0\n"),
    (
        "abcdefghijklmnop RUN\nabcdefghijklmnopq RUN\n",
        "NO P2 1\nNO E1 2\n",
    ),
    (
        "a  RUN\na RUN \n RUN\nRUN\nRUN **\na RUN *\n",
        "NO E1 1\nNO E1 2\nNO E1 3\nNO E1 4\nNO E1 5\nNO E1 6\n",
    ),
    ("LIST DROP\nlist DROP\n", "NO E1 1\nNO P2 2\n"),
];

/// Lines that are refused, and what comes first where several things are wrong.
#[test]
fn refusals(rt: HostRuntime) {
    for (input, output) in REFUSED.iter() {
        let same = answers(&rt, rt.alloc(), 1, input.as_bytes(), output.as_bytes());
        assert!(rt; same, "{input}");
    }
}

/// The bytes that spell names.
const NAME_BYTES: &[u8] = b"abcdefghijklmnopqrstuvwxyz0123456789";

/// Each byte as a name: a session of that name is not open, or the line is none of the protocol's.
#[test]
fn names_of_one_byte(rt: HostRuntime) {
    for byte in 0u8..=255 {
        let wanted = match byte {
            b'\n' => b"NO E1 1\nNO E1 2\n".as_slice(),
            _ if NAME_BYTES.contains(&byte) => b"NO P2 1\n".as_slice(),
            _ => b"NO E1 1\n".as_slice(),
        };
        let input = [byte, b' ', b'R', b'U', b'N'];
        assert!(rt; answers(&rt, rt.alloc(), 1, &input, wanted), "{byte}");
    }
}
