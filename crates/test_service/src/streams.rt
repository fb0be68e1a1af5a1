//! Readers and writers that give and take little at a time, or fail.

use crate::asserts::{assert_same, unwrap};
use crate::farms::{answers, opened, serve_on};
use std::alloc::Global;
use std::io;
use std::io::{ErrorKind, Read, Write};
use std::process::Abort;
use std::sync::Wait;
use std::thread::Threads;
use test_samples::INCREMENT;
use tp_session::ServeFault;

/// Gives one byte a call, and fails in call number `failing`, counted from 1; never where that is 0.
#[derive(Drop)]
struct Trickle<'a> {
    rest: &'a [u8],
    calls: usize,
    failing: usize,
}

impl Read for Trickle<'_> {
    fn read(&mut self, buf: &mut [u8]) -> io::Result<usize> {
        self.calls = self.calls.saturating_add(1);
        if self.calls == self.failing {
            return Err(io::Error::from(ErrorKind::BrokenPipe));
        }
        match (self.rest, buf) {
            ([first, rest @ ..], [into, ..]) => {
                *into = *first;
                self.rest = rest;
                Ok(1)
            }
            _ => Ok(0),
        }
    }
}

/// Takes one byte a call, and in call number `failing` of write or flush fails.
#[derive(Drop)]
struct Narrow {
    taken: Vec<u8>,
    calls: usize,
    failing: usize,
}

impl Narrow {
    fn fails(&mut self) -> bool {
        self.calls = self.calls.saturating_add(1);
        self.calls == self.failing
    }
}

impl Write for Narrow {
    fn write(&mut self, buf: &[u8]) -> io::Result<usize> {
        if self.fails() {
            return Err(io::Error::from(ErrorKind::BrokenPipe));
        }
        match buf {
            [] => Ok(0),
            [first, ..] => {
                self.taken.push(*first)?;
                Ok(1)
            }
        }
    }

    fn flush(&mut self) -> io::Result<()> {
        if self.fails() {
            Err(io::Error::from(ErrorKind::BrokenPipe))
        } else {
            Ok(())
        }
    }
}

/// Takes all that it is given, and remembers how much that was at each flush.
#[derive(Drop)]
pub(crate) struct Flushed {
    pub(crate) taken: Vec<u8>,
    pub(crate) flushes: Vec<usize>,
}

impl Write for Flushed {
    fn write(&mut self, buf: &[u8]) -> io::Result<usize> {
        self.taken.extend_from_slice(buf)?;
        Ok(buf.len())
    }

    fn flush(&mut self) -> io::Result<()> {
        self.flushes.push(self.taken.len())?;
        Ok(())
    }
}

const INPUT: &[u8] = b"LIST 604F\nHELLO\nLIST 24F2\r\nLIST 41F3";

const OUTPUT: &[u8] = b"0 604f ldc -1\nDONE 1\nNO E1 2\n0 24f2 mint\nDONE 1\nNO D3 1\n";

/// Serves an input that is read a byte at a time, to a writer that takes a byte a call, and returns the writer.
fn served_by_bytes<T: Abort + Threads + Wait + Sync>(
    rt: &T,
    alloc: Global,
    members: usize,
    input: &[u8],
) -> Narrow {
    let mut reader = Trickle {
        rest: input,
        calls: 0,
        failing: 0,
    };
    let mut writer = Narrow {
        taken: Vec::new(alloc),
        calls: 0,
        failing: 0,
    };
    let result = serve_on(rt, alloc, members, false, &mut reader, &mut writer);
    unwrap(rt, result);
    writer
}

/// 56 bytes and 4 flushes.
#[test]
fn a_byte_at_a_time(rt: HostRuntime) {
    let writer = served_by_bytes(&rt, rt.alloc(), 1, INPUT);
    assert!(rt; writer.taken.as_slice() == OUTPUT);
    assert_same(&rt, &writer.calls, &60);
    assert!(rt; answers(&rt, rt.alloc(), 1, INPUT, OUTPUT));
}

/// The output for an input, and how much that was at each flush.
pub(crate) fn flushes_of<T: Abort + Threads + Wait + Sync>(
    rt: &T,
    alloc: Global,
    members: usize,
    input: &[u8],
) -> Flushed {
    let mut reader = input;
    let mut writer = Flushed {
        taken: Vec::new(alloc),
        flushes: Vec::new(alloc),
    };
    let result = serve_on(rt, alloc, members, false, &mut reader, &mut writer);
    unwrap(rt, result);
    writer
}

#[test]
fn each_answer_is_flushed(rt: HostRuntime) {
    let writer = flushes_of(&rt, rt.alloc(), 1, INPUT);
    assert!(rt; writer.taken.as_slice() == OUTPUT);
    assert_same(
        &rt,
        &writer.flushes.as_slice(),
        &[21, 29, 48, 56].as_slice(),
    );
}

/// How much of the output is written once so much of the input was read.
fn written_after(read: usize) -> usize {
    if read < 10 {
        0
    } else if read < 16 {
        21
    } else if read < 27 {
        29
    } else {
        48
    }
}

/// Whether serving an input ends with a read fault and this is written, where this read fails.
pub(crate) fn read_fails_as<T: Abort + Threads + Wait + Sync>(
    rt: &T,
    alloc: Global,
    input: &[u8],
    failing: usize,
    wanted: &[u8],
) -> bool {
    let mut reader = Trickle {
        rest: input,
        calls: 0,
        failing,
    };
    let mut writer = Vec::new(alloc);
    let result = serve_on(rt, alloc, 1, false, &mut reader, &mut writer);
    result == Err(ServeFault::Read) && writer.as_slice() == wanted
}

#[test]
fn each_read_fails(rt: HostRuntime) {
    for failing in 1..38 {
        let wanted = OUTPUT.get(..written_after(failing - 1)).unwrap_or(OUTPUT);
        let same = read_fails_as(&rt, rt.alloc(), INPUT, failing, wanted);
        assert!(rt; same, "{failing}");
    }
}

/// Whether serving an input ends with a write fault and a beginning of the output is taken, where this write or flush
/// fails.
fn write_fails_within<T: Abort + Threads + Wait + Sync>(
    rt: &T,
    alloc: Global,
    input: &[u8],
    failing: usize,
    output: &[u8],
) -> bool {
    let mut reader = input;
    let mut writer = Narrow {
        taken: Vec::new(alloc),
        calls: 0,
        failing,
    };
    let result = serve_on(rt, alloc, 1, false, &mut reader, &mut writer);
    result == Err(ServeFault::Write) && output.starts_with(writer.taken.as_slice())
}

#[test]
fn each_write_fails(rt: HostRuntime) {
    for failing in 1..61 {
        let same = write_fails_within(&rt, rt.alloc(), INPUT, failing, OUTPUT);
        assert!(rt; same, "{failing}");
    }
}

/// A session of three packets, their run, and a run of none.
fn session(rt: &impl Abort, alloc: Global) -> Vec<u8> {
    let mut input = opened(rt, alloc, INCREMENT);
    let rest = b"a PACKET 01000000\na PACKET FFFFFF7F\na PACKET 01000000\na RUN\na RUN\n";
    unwrap(rt, input.extend_from_slice(rest));
    input
}

const SESSION_ANSWERS: &[u8] = b"YES 16 16\nKEPT 0\nKEPT 1\nKEPT 2\n\
    R 0 0 16 02000000\nR 1 1 16 00000080\nR 2 0 16 02000000\nDONE 3\nDONE 0\n";

/// How much is written before each line, and how many bytes the lines before it have.
const STEPS: [(usize, usize); 7] = [
    (0, 0),
    (73, 10),
    (91, 17),
    (109, 24),
    (127, 31),
    (133, 92),
    (139, 99),
];

/// How much of a session's answers is written once so much of the session was read.
fn answered_after(read: usize) -> usize {
    let mut written = 0;
    for (lines, bytes) in STEPS.iter() {
        if *lines <= read {
            written = *bytes;
        }
    }
    written
}

/// 99 bytes and 6 flushes.
#[test]
fn a_session_a_byte_at_a_time(rt: HostRuntime) {
    let input = session(&rt, rt.alloc());
    let writer = served_by_bytes(&rt, rt.alloc(), 4, &input);
    assert!(rt; writer.taken.as_slice() == SESSION_ANSWERS);
    assert_same(&rt, &writer.calls, &105);
}

#[test]
fn each_read_of_a_session_fails(rt: HostRuntime) {
    let input = session(&rt, rt.alloc());
    for failing in 1..141 {
        let wanted = SESSION_ANSWERS
            .get(..answered_after(failing - 1))
            .unwrap_or(SESSION_ANSWERS);
        let same = read_fails_as(&rt, rt.alloc(), &input, failing, wanted);
        assert!(rt; same, "{failing}");
    }
}

/// 99 bytes and 6 flushes.
#[test]
fn each_write_of_a_session_fails(rt: HostRuntime) {
    let input = session(&rt, rt.alloc());
    for failing in 1..106 {
        let same = write_fails_within(&rt, rt.alloc(), &input, failing, SESSION_ANSWERS);
        assert!(rt; same, "{failing}");
    }
}
