//! Codes judged by hand, and each call of a nest once.

use crate::asserts::{assert_same, unwrap};
use crate::images::*;
use crate::reading::read;
use std::alloc::Global;
use std::process::Abort;
use test_samples::*;
use tp_decode::Instr;
use tp_flow::{Edge, FlowCode, FlowFault, LoopRange, Nest, check_flow, edges};

/// Head, lend, control word, count and start.
type Fields = (u16, u16, u16, u16, i32);

/// The refusal and its place; none where the code passes.
type Refusal = Option<(FlowCode, usize)>;

/// An image of 16 workspace words.
fn image_bytes(rt: &impl Abort, alloc: Global, rows: &[Fields], code: &[u8]) -> Vec<u8> {
    let mut bytes = unwrap(rt, Vec::from_slice(alloc, b"TPW1"));
    let lengths = [code.len(), 16, 8, 1, 1, rows.len()];
    for length in lengths {
        let field = u16::try_from(length).unwrap_or(u16::MAX);
        unwrap(rt, bytes.extend_from_slice(&field.to_le_bytes()));
    }
    for (head, lend, control, count, start) in rows {
        for field in [*head, *lend, *control, *count] {
            unwrap(rt, bytes.extend_from_slice(&field.to_le_bytes()));
        }
        unwrap(rt, bytes.extend_from_slice(&start.to_le_bytes()));
    }
    unwrap(rt, bytes.extend_from_slice(code));
    bytes
}

/// The judgement of an image's code.
fn judged(rt: &(impl Abort + AllocGlobal), bytes: &[u8]) -> Result<Nest, FlowFault> {
    let (image, listing) = read(rt, bytes);
    check_flow(&image, &listing)
}

/// Fails unless an image's code has this refusal, or passes where there is none.
fn assert_judged(rt: &(impl Abort + AllocGlobal), bytes: &[u8], expected: Refusal) {
    let expected = expected.map(|(code, place)| FlowFault { code, place });
    assert_same(rt, &judged(rt, bytes).err(), &expected);
}

/// Fails unless a code with these loop rows has this refusal, or passes where there is none.
fn assert_code_judged(
    rt: &(impl Abort + AllocGlobal),
    rows: &[Fields],
    code: &[u8],
    expected: Refusal,
) {
    let bytes = image_bytes(rt, rt.alloc(), rows, code);
    assert_judged(rt, bytes.as_slice(), expected);
}

#[test]
fn judges_samples(rt: HostRuntime) {
    let samples: [(&[u8], Refusal); 7] = [
        (SUM_TO_TEN, None),
        (ONE_TURN, None),
        (SUM_TO_TEN_THOUSAND, None),
        (NESTED_TOO_LONG, None),
        (ONE_TURN_TOO_MANY, Some((FlowCode::J6, 0))),
        (JUMPS_INTO_SPELLING, Some((FlowCode::J1, 7))),
        (JUMPS_OUT_OF_LOOP, Some((FlowCode::J4, 14))),
    ];
    for (bytes, expected) in samples {
        assert_judged(&rt, bytes, expected);
    }
}

/// One row over `SUM_CODE`, and whether it passes.
const SINGLE_ROWS: [(Fields, bool); 18] = [
    ((12, 18, 10, 10, 0), true),
    // The head, then the lend, is the second byte of a spelling.
    ((2, 18, 10, 10, 0), false),
    ((12, 19, 10, 10, 0), false),
    // One of them lies behind the code.
    ((12, 27, 10, 10, 0), false),
    // The head is 0.
    ((0, 18, 10, 10, 0), false),
    ((1, 18, 10, 10, 0), true),
    // The head is not before the lend.
    ((18, 18, 10, 10, 0), false),
    ((20, 18, 10, 10, 0), false),
    // There is no lend.
    ((12, 17, 10, 10, 0), false),
    // The block ends behind the workspace.
    ((12, 18, 14, 10, 0), true),
    ((12, 18, 15, 10, 0), false),
    // No turn, one, 10,000 and 10,001.
    ((12, 18, 10, 0, 0), false),
    ((12, 18, 10, 1, 0), true),
    ((12, 18, 10, 10_000, 0), true),
    ((12, 18, 10, 10_001, 0), false),
    // The last index is the greatest word, and one more.
    ((12, 18, 10, 10, 2_147_483_638), true),
    ((12, 18, 10, 10, 2_147_483_639), false),
    ((12, 18, 10, 10, -2_147_483_648), true),
];

#[test]
fn judges_single_rows(rt: HostRuntime) {
    for (row, passes) in SINGLE_ROWS {
        let refusal = if passes {
            None
        } else {
            Some((FlowCode::J6, 0))
        };
        assert_code_judged(&rt, &[row], SUM_CODE, refusal);
    }
}

/// Heads and lends of rows over a code, and its refusal.
const ROWS_AMONG_OTHERS: [(&[(u16, u16)], &[u8], Refusal); 15] = [
    // One in the other, in both orders, and one behind the other.
    (&[(1, 7), (2, 4)], TWO_LENDS, None),
    (&[(2, 4), (1, 7)], TWO_LENDS, None),
    (&[(1, 4), (6, 7)], TWO_LENDS, None),
    // They cross; they have one address in common, the lend of one and the head of the other.
    (&[(1, 4), (2, 7)], TWO_LENDS, Some((FlowCode::J6, 1))),
    (&[(2, 7), (1, 4)], TWO_LENDS, Some((FlowCode::J6, 1))),
    (&[(1, 4), (4, 7)], TWO_LENDS, Some((FlowCode::J6, 1))),
    // One head, one lend, both.
    (&[(1, 7), (1, 4)], TWO_LENDS, Some((FlowCode::J6, 1))),
    (&[(1, 4), (2, 4)], TWO_LENDS, Some((FlowCode::J6, 1))),
    (&[(1, 4), (1, 4)], TWO_LENDS, Some((FlowCode::J6, 1))),
    // The least number of a bad row.
    (&[(1, 7), (2, 3)], TWO_LENDS, Some((FlowCode::J6, 1))),
    (&[(0, 7), (2, 3)], TWO_LENDS, Some((FlowCode::J6, 0))),
    // Four loops within one another.
    (&[(4, 6), (3, 8), (2, 10), (1, 12)], FOUR_LENDS, None),
    // The innermost of five is bad, whichever row it is.
    (
        &[(1, 15), (2, 13), (3, 11), (4, 9), (5, 7)],
        FIVE_LENDS,
        Some((FlowCode::J6, 4)),
    ),
    (
        &[(5, 7), (4, 9), (3, 11), (2, 13), (1, 15)],
        FIVE_LENDS,
        Some((FlowCode::J6, 0)),
    ),
    // It is bad in a bad row too.
    (
        &[(5, 7), (4, 9), (3, 11), (2, 12), (1, 15)],
        FIVE_LENDS,
        Some((FlowCode::J6, 0)),
    ),
];

/// Rows of ten turns, from these heads to these lends.
fn rows_over(rt: &impl Abort, alloc: Global, ranges: &[(u16, u16)]) -> Vec<Fields> {
    let mut rows = Vec::new(alloc);
    for (head, lend) in ranges {
        unwrap(rt, rows.push((*head, *lend, 10, 10, 0)));
    }
    rows
}

/// Fails unless a code with such rows has this refusal, or passes where there is none.
fn assert_ranges_judged(
    rt: &(impl Abort + AllocGlobal),
    ranges: &[(u16, u16)],
    code: &[u8],
    expected: Refusal,
) {
    let rows = rows_over(rt, rt.alloc(), ranges);
    assert_code_judged(rt, rows.as_slice(), code, expected);
}

#[test]
fn judges_rows_among_others(rt: HostRuntime) {
    for (ranges, code, expected) in ROWS_AMONG_OTHERS {
        assert_ranges_judged(&rt, ranges, code, expected);
    }
}

/// Rows and a code, and its refusal.
const CODES: [(&[Fields], &[u8], Refusal); 19] = [
    // A jump to -1, to the end of the code, and back to 0.
    (&[], b"\x60\x0D", Some((FlowCode::J2, 0))),
    (&[], b"\x01\x41", Some((FlowCode::J2, 0))),
    (&[], b"\xA0", Some((FlowCode::J2, 0))),
    (&[], b"\x41\x60\x0D", Some((FlowCode::J3, 1))),
    // Back into a spelling: the direction is judged before the target.
    (&[], b"\x41\x21\x40\x60\x0D", Some((FlowCode::J3, 3))),
    // A lend that no row names, as the last instruction.
    (&[], b"\x22\xF1", Some((FlowCode::J7, 0))),
    // One of two lends is named.
    (&[(1, 4, 10, 10, 0)], TWO_LENDS, Some((FlowCode::J7, 7))),
    // Control goes on at the end, by a Next edge and by an Out edge.
    (&[], b"\x41", Some((FlowCode::J5, 0))),
    (&[], b"\xA1\x41\x41", Some((FlowCode::J5, 2))),
    (
        &[(1, 2, 10, 10, 0)],
        b"\x40\x40\x22\xF1",
        Some((FlowCode::J5, 2)),
    ),
    (&[], b"\x21\xF5", None),
    // Into a loop: at its head, behind it, and into a spelling there.
    (
        &[(2, 4, 10, 10, 0)],
        b"\x01\x40\x40\x40\x22\xF1\x21\xF5",
        None,
    ),
    (
        &[(2, 4, 10, 10, 0)],
        b"\x02\x40\x40\x40\x22\xF1\x21\xF5",
        Some((FlowCode::J4, 0)),
    ),
    (
        &[(2, 4, 10, 10, 0)],
        b"\xA3\x40\x40\x40\x22\xF1\x21\xF5",
        Some((FlowCode::J4, 0)),
    ),
    (
        &[(2, 4, 10, 10, 0)],
        b"\x02\x40\x21\x40\x22\xF1\x21\xF5",
        Some((FlowCode::J1, 0)),
    ),
    // Within a loop, to its lend; and out of it.
    (
        &[(2, 4, 10, 10, 0)],
        b"\x40\x40\x01\x40\x22\xF1\x21\xF5",
        None,
    ),
    (
        &[(2, 4, 10, 10, 0)],
        b"\x40\x40\x03\x40\x22\xF1\x21\xF5",
        Some((FlowCode::J4, 2)),
    ),
    // Rows are judged before instructions, and instructions by rising address.
    (&[(0, 0, 10, 10, 0)], b"\x60\x0D", Some((FlowCode::J6, 0))),
    (&[], b"\x41\x60\x0D\x22\xF1", Some((FlowCode::J3, 1))),
];

#[test]
fn judges_instructions(rt: HostRuntime) {
    for (rows, code, expected) in CODES {
        assert_code_judged(&rt, rows, code, expected);
    }
}

/// The nest of an image's loops.
fn nest_of(rt: &(impl Abort + AllocGlobal), bytes: &[u8]) -> Nest {
    judged(rt, bytes).expect(rt, "a nest")
}

#[test]
fn knows_what_lies_in_a_loop(rt: HostRuntime) {
    let nest = nest_of(&rt, SUM_TO_TEN);
    let inside = [
        nest.contains(0, 11),
        nest.contains(0, 12),
        nest.contains(0, 18),
        nest.contains(0, 19),
        nest.contains(1, 12),
    ];
    assert_same(&rt, &inside, &[false, true, true, false, false]);
    assert_same(
        &rt,
        &(nest.lend_row(18), nest.lend_row(12)),
        &(Some(0), None),
    );
}

#[test]
fn leads_along_edges(rt: HostRuntime) {
    let nest = nest_of(&rt, SUM_TO_TEN);
    let ways = [
        (18, 20, Instr::Lend, Edge::Next, None),
        (18, 20, Instr::Lend, Edge::Taken, None),
        (18, 20, Instr::Lend, Edge::Back, Some(12)),
        (18, 20, Instr::Lend, Edge::Out, Some(20)),
        (0, 1, Instr::Jump(5), Edge::Taken, Some(6)),
        (0, 2, Instr::Jump(-3), Edge::Taken, None),
        (0, 1, Instr::Jump(5), Edge::Next, None),
        (0, 1, Instr::Cj(5), Edge::Next, Some(1)),
        (0, 1, Instr::Stopp, Edge::Next, None),
    ];
    for (at, next, instr, edge, target) in ways {
        assert_same(&rt, &nest.target(at, next, instr, edge), &target);
    }
}

/// The nest of a loop from 2 to 4 that lies in one from 1 to 7.
fn nest_of_two(rt: &(impl Abort + AllocGlobal)) -> Nest {
    let rows = [(2, 4, 10, 10, 0), (1, 7, 12, 10, 0)];
    let bytes = image_bytes(rt, rt.alloc(), &rows, TWO_LENDS);
    nest_of(rt, bytes.as_slice())
}

#[test]
fn finds_the_loops_around(rt: HostRuntime) {
    let nest = nest_of_two(&rt);
    let around: [(usize, &[usize]); 5] = [(0, &[]), (1, &[1]), (3, &[0, 1]), (6, &[1]), (9, &[])];
    for (at, rows) in around {
        assert_eq!(rt; nest.around(at).as_slice(), rows, "at {at}");
    }
}

#[test]
fn finds_loops_by_number(rt: HostRuntime) {
    let nest = nest_of_two(&rt);
    let entered = [
        nest.entered(0, 1),
        nest.entered(1, 2),
        nest.entered(4, 2),
        nest.entered(2, 3),
    ];
    assert_same(&rt, &entered, &[Some(1), Some(0), None, None]);
    let ranges = (nest.range(1), nest.range(2));
    assert_same(&rt, &ranges, &(Some(LoopRange { head: 1, lend: 7 }), None));
}

#[test]
fn lists_edges(rt: HostRuntime) {
    assert_same(
        &rt,
        &edges(Instr::Cj(0)),
        &[Edge::Next, Edge::Taken].as_slice(),
    );
    assert_same(
        &rt,
        &edges(Instr::Lend),
        &[Edge::Back, Edge::Out].as_slice(),
    );
    assert_same(&rt, &edges(Instr::Stopp).len(), &0);
}

#[test]
fn prints_a_fault(rt: HostRuntime) {
    let fault = unwrap(&rt, judged(&rt, JUMPS_OUT_OF_LOOP).err().ok_or("a fault"));
    assert_same(
        &rt,
        &unwrap(&rt, format!(in rt.alloc(); "{fault}")).as_str(),
        &"J4 at 14",
    );
}
