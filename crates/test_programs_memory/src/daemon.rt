//! The program `farmd`, from its words to its status.

use std::alloc::Global;
use std::env;
use std::process::ExitCode;
use std::sync::Wait;
use std::thread::Threads;
use test_samples::INCREMENT;
use test_samples::answers::{Answer, Tally, same_if};
use test_samples::page::Page;
use test_samples::streams::Words;
use tp_program::run;

/// Serves once, and counts the answer.
pub fn all<R: Threads + Wait + Sync>(rt: &R, alloc: Global) -> Tally {
    let mut tally = Tally::new();
    let (answer, written) = served(rt, alloc);
    tally.add(answer);
    tally.written = written;
    tally
}

/// Listings, and a session of three packets, their run and a run of none.
fn input() -> Page {
    let mut page = Page::new();
    page.push(b"LIST 604F\nHELLO\nLIST 24F2616F40\nLIST 41F3\nLIST 2222\na IMAGE ");
    page.push_digits(INCREMENT);
    page.push(b"\na PACKET 01000000\na PACKET FFFFFF7F\na PACKET 01000000\na RUN\na RUN");
    page
}

const OUTPUT: &[u8] =
    b"0 604f ldc -1\nDONE 1\nNO E1 2\n0 24f2 mint\n2 616f40 ldc 256 least 212040\nDONE 2\nNO D3 1\nNO D1 0\n\
    YES 16 16\nKEPT 0\nKEPT 1\nKEPT 2\n\
    R 0 0 16 02000000\nR 1 1 16 00000080\nR 2 0 16 02000000\nDONE 3\nDONE 0\n";

/// How much of the output is written before each line.
const BEFORE: [usize; 11] = [0, 21, 29, 78, 86, 94, 104, 111, 118, 125, 186];

/// And before each line that asks for a run.
const BEFORE_RUNS: [usize; 2] = [125, 186];

/// The program `farmd` from its words to its status, and how much is written. After Memory, and where a thread was
/// refused for it, the answers to some of the first lines are written, each of them whole, and the fault is reported.
fn served<T: Threads + Wait + Sync>(rt: &T, alloc: Global) -> (Answer, usize) {
    let input = input();
    let mut reader = input.written();
    let mut page = Page::new();
    let mut errors = Page::new();
    let words = env::args(&(Words(&["farmd", "--members", "1"]), alloc));
    let status = run(rt, words, alloc, &mut reader, &mut page, &mut errors);
    let (written, fault) = (page.written(), errors.written());
    let answer = if fault.is_empty() {
        same_if(status == ExitCode::SUCCESS && written == OUTPUT)
    } else if status == ExitCode::from(1) && OUTPUT.starts_with(written) {
        want_at(fault, written.len())
    } else {
        Answer::Other
    };
    (answer, written.len())
}

/// A fault that is reported after so much was written. A line for which a thread was refused asks for a run.
fn want_at(fault: &[u8], written: usize) -> Answer {
    let is_want = if fault == b"farmd: thread\n".as_slice() {
        BEFORE_RUNS.contains(&written)
    } else {
        fault == b"farmd: memory\n".as_slice() && BEFORE.contains(&written)
    };
    if is_want {
        Answer::Memory
    } else {
        Answer::Other
    }
}
