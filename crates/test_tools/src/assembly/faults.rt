//! Each fault of a program, and which comes first.

use crate::assembly::programs::{back, cj, plain, program, row, spelled};
use crate::asserts::{assert_same, unwrap};
use std::alloc::Global;
use std::process::Abort;
use tp_decode::Instr;
use tp_image::{ImageCode, Version};
use tpw_asm::{AssemblyFault, Line, LineFault, Loop, Operation, Spot, assemble};

/// A program of these loops and lines has this fault.
fn refused(rt: &impl Abort, alloc: Global, loops: &[Loop], lines: &[Line], fault: AssemblyFault) {
    let program = program(rt, alloc, 8, 1, 1, loops, lines);
    match assemble(alloc, &program) {
        Ok(_) => assert!(rt; false, "{fault}"),
        Err(found) => assert_same(rt, &found, &fault),
    }
}

#[test]
fn lines(rt: HostRuntime) {
    let stop = plain(Instr::Stopp);
    let wide = spelled(Operation::Plain(Instr::Ldc(1)), Some(9));
    let none = spelled(Operation::Plain(Instr::Ldc(1)), Some(0));
    let narrow = spelled(Operation::Plain(Instr::Ldc(16)), Some(1));
    let cases = [
        (
            [stop, wide, cj(0)],
            AssemblyFault::Line(1, LineFault::TooWide),
        ),
        (
            [cj(4), wide, stop],
            AssemblyFault::Line(0, LineFault::NoPlace),
        ),
        (
            [stop, cj(1), stop],
            AssemblyFault::Line(1, LineFault::Backward),
        ),
        (
            [stop, back(2, 1), stop],
            AssemblyFault::Line(1, LineFault::Backward),
        ),
        (
            [back(0, 4), stop, stop],
            AssemblyFault::Line(0, LineFault::NoPlace),
        ),
        ([stop, none, narrow], AssemblyFault::Narrow(1)),
        ([stop, narrow, none], AssemblyFault::Narrow(1)),
    ];
    for (lines, fault) in cases {
        refused(&rt, rt.alloc(), &[], &lines, fault);
    }
}

/// A label that is a place of the program's end is none of a fault; one behind it is.
#[test]
fn loops(rt: HostRuntime) {
    let lines = [plain(Instr::Stopp)];
    let behind = Loop {
        head: Spot::Address(0xFFFF),
        lend: Spot::Place(2),
        control: 5,
        count: 1,
        start: 0,
    };
    refused(
        &rt,
        rt.alloc(),
        &[row(0, 1, 5, 1), behind],
        &lines,
        AssemblyFault::Row(1),
    );
    refused(
        &rt,
        rt.alloc(),
        &[row(2, 0, 5, 1)],
        &lines,
        AssemblyFault::Row(0),
    );
    refused(
        &rt,
        rt.alloc(),
        &[row(0, 1, 5, 1); 17],
        &lines,
        AssemblyFault::Field(ImageCode::F8),
    )
}

/// Codes of no bytes, of the most bytes and of one more.
#[test]
fn sizes(rt: HostRuntime) {
    refused(
        &rt,
        rt.alloc(),
        &[],
        &[],
        AssemblyFault::Field(ImageCode::F3),
    );
    let mut program = program(&rt, rt.alloc(), 8, 1, 1, &[], &[]);
    unwrap(&rt, program.lines.resize(2048, plain(Instr::Ldc(0))));
    let longest = unwrap(&rt, assemble(rt.alloc(), &program));
    assert_same(&rt, &longest.image.code.len(), &2048);
    unwrap(&rt, program.lines.push(plain(Instr::Ldc(0))));
    match assemble(rt.alloc(), &program) {
        Ok(_) => assert!(rt; false),
        Err(found) => assert_same(&rt, &found, &AssemblyFault::TooLong),
    }
    program.version = Version::Two;
    unwrap(&rt, program.lines.resize(4096, plain(Instr::Mint)));
    unwrap(&rt, program.lines.resize(5120, plain(Instr::Mint)));
    let longest = unwrap(&rt, assemble(rt.alloc(), &program));
    assert_same(&rt, &longest.image.code.len(), &(2049 + 2 * 3071));
    let last = spelled(Operation::Plain(Instr::Mint), Some(3));
    unwrap(&rt, program.lines.push(last));
    match assemble(rt.alloc(), &program) {
        Ok(_) => assert!(rt; false),
        Err(found) => {
            assert_same(&rt, &found, &AssemblyFault::TooLong);
            assert_same(
                &rt,
                &unwrap(&rt, format!(in rt.alloc(); "{found}")).as_str(),
                &"the code is too long: at most 2048 bytes in version 1, 8192 in version 2",
            );
        }
    }
}
