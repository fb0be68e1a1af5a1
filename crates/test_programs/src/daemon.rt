//! Each way in which the program ends: its status, and what it writes.

use crate::asserts::{assert_same, unwrap};
use std::alloc::{AllocError, Global};
use std::env::{Env, FillError};
use std::io::{ErrorKind, Read, Write};
use std::process::{Abort, ExitCode};
use std::sync::Wait;
use std::thread::Threads;
use std::{env, io};
use test_samples::streams::{Broken, Ended, Unflushed, Words};
use test_samples::{INCREMENT, TRACES_ITS_PACKET};
use tp_program::{Ending, run};
use tp_session::ServeFault;

mod options;
mod threads;

/// A command line with a word that is no text.
#[derive(Drop)]
struct NoText;

impl Env for NoText {
    fn arg(&self, i: usize, buf: &mut [u8]) -> Result<usize, FillError> {
        match (i, buf) {
            (0, [first, ..]) => {
                *first = b'f';
                Ok(1)
            }
            (1, [first, ..]) => {
                *first = 0xFF;
                Ok(1)
            }
            (0 | 1, _) => Err(FillError::TooLong),
            _ => Err(FillError::NotPresent),
        }
    }

    fn var(&self, _name: &str, _buf: &mut [u8]) -> Result<usize, FillError> {
        Err(FillError::NotPresent)
    }

    fn var_at(&self, _i: usize, _buf: &mut [u8]) -> Result<usize, FillError> {
        Err(FillError::NotPresent)
    }
}

/// Runs the program on a command line, a reader and a writer.
fn ran<T: Threads + Wait + Sync, R: Read, W: Write>(
    rt: &T,
    alloc: Global,
    words: &[&str],
    input: &mut R,
    output: &mut W,
) -> Ended {
    let mut errors = Vec::new(alloc);
    let words = env::args(&(Words(words), alloc));
    let status = run(rt, words, alloc, input, output, &mut errors);
    Ended { status, errors }
}

/// The line that gives session `a` an image, with its digits in capitals.
fn image_line(rt: &impl Abort, alloc: Global, image: &[u8]) -> Vec<u8> {
    let digits = unwrap(rt, hex::encode_upper(alloc, image));
    let mut line = unwrap(rt, Vec::from_slice(alloc, b"a IMAGE "));
    unwrap(rt, line.extend_from_slice(digits.as_bytes()));
    unwrap(rt, line.push(b'\n'));
    line
}

#[test]
fn serves_to_the_end(rt: HostRuntime) {
    let mut output = Vec::new(rt.alloc());
    let mut input = b"LIST 604F\nHELLO\n".as_slice();
    let ended = ran(&rt, rt.alloc(), &["farmd"], &mut input, &mut output);
    assert_same(&rt, &ended.status, &ExitCode::SUCCESS);
    assert!(rt; output.as_slice() == b"0 604f ldc -1\nDONE 1\nNO E1 2\n".as_slice());
    assert!(rt; ended.errors.is_empty());
}

#[test]
fn reports_a_failed_read(rt: HostRuntime) {
    let mut output = Vec::new(rt.alloc());
    let ended = ran(&rt, rt.alloc(), &["farmd"], &mut Broken, &mut output);
    assert_same(&rt, &ended.status, &ExitCode::from(1));
    assert!(rt; output.is_empty());
    assert!(rt; ended.errors.as_slice() == b"farmd: read\n".as_slice());
}

/// Fails unless an answer, help and the version end with this writer's fault.
fn assert_reports_a_failed_write<T: Threads + Wait + Sync, W: Write>(
    rt: &T,
    alloc: Global,
    output: &mut W,
)
where
    T: Abort,
{
    for words in [
        ["farmd"].as_slice(),
        ["farmd", "--help"].as_slice(),
        ["farmd", "--version"].as_slice(),
    ] {
        let mut input = b"LIST 604F\n".as_slice();
        let ended = ran(rt, alloc, words, &mut input, output);
        assert_same(rt, &ended.status, &ExitCode::from(1));
        assert!(rt; ended.errors.as_slice() == b"farmd: write\n".as_slice());
    }
}

#[test]
fn reports_a_failed_write(rt: HostRuntime) {
    assert_reports_a_failed_write(&rt, rt.alloc(), &mut Broken);
}

#[test]
fn reports_a_failed_flush(rt: HostRuntime) {
    assert_reports_a_failed_write(&rt, rt.alloc(), &mut Unflushed);
}

/// Gives a line a call, and fails in one call, counted from 1.
#[derive(Drop)]
struct ByLine<'a> {
    lines: &'a [&'a [u8]],
    calls: usize,
    failing: usize,
}

impl Read for ByLine<'_> {
    fn read(&mut self, buf: &mut [u8]) -> io::Result<usize> {
        self.calls = self.calls.saturating_add(1);
        if self.calls == self.failing {
            return Err(io::Error::from(ErrorKind::BrokenPipe));
        }
        match self.lines {
            [line, rest @ ..] if line.len() <= buf.len() => {
                buf[..line.len()].copy_from_slice(line);
                self.lines = rest;
                Ok(line.len())
            }
            _ => Ok(0),
        }
    }
}

/// Takes what it is given, and fails in one call of write or flush, counted from 1.
#[derive(Drop)]
struct Taking {
    taken: Vec<u8>,
    calls: usize,
    failing: usize,
}

impl Taking {
    fn fails(&mut self) -> bool {
        self.calls = self.calls.saturating_add(1);
        self.calls == self.failing
    }
}

impl Write for Taking {
    fn write(&mut self, buf: &[u8]) -> io::Result<usize> {
        if self.fails() {
            return Err(io::Error::from(ErrorKind::BrokenPipe));
        }
        self.taken.extend_from_slice(buf)?;
        Ok(buf.len())
    }

    fn flush(&mut self) -> io::Result<()> {
        if self.fails() {
            Err(io::Error::from(ErrorKind::BrokenPipe))
        } else {
            Ok(())
        }
    }
}

/// The answers to an image that adds one to its packet, to a packet and to their run: of 10, 7 and 25 bytes.
const ANSWERS: &[u8] = b"YES 16 16\nKEPT 0\nR 0 0 16 02000000\nDONE 1\n";

/// Each read and each write fails in turn: the call that fails, the first bytes of the answers that are out, and the
/// message.
#[test]
fn reports_each_failed_call(rt: HostRuntime) {
    let cases = [
        (1, 0, 0, "farmd: read\n"),
        (2, 0, 10, "farmd: read\n"),
        (3, 0, 17, "farmd: read\n"),
        (4, 0, 42, "farmd: read\n"),
        (0, 1, 0, "farmd: write\n"),
        (0, 2, 10, "farmd: write\n"),
        (0, 3, 10, "farmd: write\n"),
        (0, 4, 17, "farmd: write\n"),
        (0, 5, 17, "farmd: write\n"),
        (0, 6, 42, "farmd: write\n"),
        (5, 7, 42, ""),
    ];
    let image = image_line(&rt, rt.alloc(), INCREMENT);
    let lines = [
        image.as_slice(),
        b"a PACKET 01000000\n".as_slice(),
        b"a RUN\n".as_slice(),
    ];
    for (read, write, out, message) in cases {
        let mut input = ByLine {
            lines: &lines,
            calls: 0,
            failing: read,
        };
        let mut output = Taking {
            taken: Vec::new(rt.alloc()),
            calls: 0,
            failing: write,
        };
        let ended = ran(&rt, rt.alloc(), &["farmd"], &mut input, &mut output);
        assert_same(
            &rt,
            &ended.status,
            &ExitCode::from(u8::from(!message.is_empty())),
        );
        assert_same(&rt, &output.taken.len(), &out);
        assert!(rt; ANSWERS.starts_with(output.taken.as_slice()));
        assert!(rt; ended.errors.as_slice() == message.as_bytes());
    }
}

/// Words, and the first line of their refusal.
#[test]
fn refuses_words(rt: HostRuntime) {
    let refused = [
        (
            ["farmd", "--members", "0"].as_slice(),
            "error: invalid value '0' for '--members <N>': 0 is not in 1..=64\n",
        ),
        (
            ["farmd", "LIST"].as_slice(),
            "error: unexpected argument 'LIST' found\n",
        ),
        (
            ["farmd", ""].as_slice(),
            "error: unexpected argument '' found\n",
        ),
    ];
    for (words, message) in refused {
        let mut output = Vec::new(rt.alloc());
        let mut input = b"LIST 604F\n".as_slice();
        let ended = ran(&rt, rt.alloc(), words, &mut input, &mut output);
        assert_same(&rt, &ended.status, &ExitCode::from(2));
        assert!(rt; output.is_empty());
        assert!(rt; ended.errors.starts_with(message.as_bytes()));
        assert!(rt;
            ended
                .errors
                .ends_with(b"\n\nFor more information, try '--help'.\n".as_slice())
        );
    }
}

#[test]
fn refuses_a_word_that_is_no_text(rt: HostRuntime) {
    let mut output = Vec::new(rt.alloc());
    let mut errors = Vec::new(rt.alloc());
    let status = run(
        &rt,
        env::args(&(NoText, rt.alloc())),
        rt.alloc(),
        &mut Broken,
        &mut output,
        &mut errors,
    );
    assert_same(&rt, &status, &ExitCode::from(2));
    assert!(rt; output.is_empty());
    assert!(rt;
        errors.as_slice() == b"error: a word of the command line is not UTF-8\n".as_slice()
    );
}

/// All that `--help` says.
const HELP: &str = "\
A processor farm whose every promise is proved

Usage: farmd [OPTIONS]

Options:
      --members <N>  How many members run a batch, 1 to 64 [default: 4]
      --trace        Follow each result with its trace
  -h, --help         Print help
  -V, --version      Print version

Reads lines on standard input, and writes the answer to each on standard output:
  LIST <hex>        the instructions of a code, then DONE <instructions>
  <s> IMAGE <hex>   YES <code bytes> <budget>; opens session <s>, or gives it another image
  <s> PACKET <hex>  KEPT <n>, the packet's number in the coming batch
  <s> RUN           R <n> <flag> <steps> <hex> or LOST <n> for each packet, then DONE <packets>
  RUN *             OF <s> and its RUN for each session, then ALL <sessions>
  <s> DROP          GONE
A refused line is answered by NO <code> <place>. docs/PROTOCOL.md says the rest.
";

#[test]
fn answers_help_and_version(rt: HostRuntime) {
    // Whatever the file is called.
    let cases = [
        ("farmd", "--help", HELP),
        ("tp_farmd.by-rattle", "--help", HELP),
        (
            "farmd",
            "--version",
            "farmd 0.1 (unreleased, rattle-kit-13f)\n",
        ),
    ];
    for (name, word, answer) in cases {
        let mut output = Vec::new(rt.alloc());
        let ended = ran(&rt, rt.alloc(), &[name, word], &mut Broken, &mut output);
        assert_same(&rt, &ended.status, &ExitCode::SUCCESS);
        let written = unwrap(&rt, str::from_utf8(&output));
        assert_same(&rt, &written, &answer);
        assert!(rt; ended.errors.is_empty());
    }
}

/// The number of members changes no answer, and the trace is written where it is asked for.
#[test]
fn serves_as_asked(rt: HostRuntime) {
    let cases = [
        (["farmd"].as_slice(), "R 0 0 19 0a000000\nDONE 1\n"),
        (
            ["farmd", "--members", "1"].as_slice(),
            "R 0 0 19 0a000000\nDONE 1\n",
        ),
        (
            ["farmd", "--members=64", "--trace"].as_slice(),
            "R 0 0 19 0a000000\nT 0 0a000000\nDONE 1\n",
        ),
    ];
    let mut lines = image_line(&rt, rt.alloc(), TRACES_ITS_PACKET);
    unwrap(&rt, lines.extend_from_slice(b"a PACKET 0A000000\na RUN\n"));
    for (words, answer) in cases {
        let mut output = Vec::new(rt.alloc());
        let mut input = lines.as_slice();
        let ended = ran(&rt, rt.alloc(), words, &mut input, &mut output);
        assert_same(&rt, &ended.status, &ExitCode::SUCCESS);
        assert!(rt; output.starts_with(b"YES 19 19\nKEPT 0\n".as_slice()));
        assert!(rt; output.ends_with(answer.as_bytes()));
        assert!(rt; ended.errors.is_empty());
    }
}

/// The text and the status of each ending.
#[test]
fn endings(rt: HostRuntime) {
    let endings = [
        (
            Ending::NotText,
            2,
            "error: a word of the command line is not UTF-8\n",
        ),
        (
            Ending::from(clap::Error::from(AllocError)),
            1,
            "farmd: memory\n",
        ),
        (Ending::Fault(ServeFault::Read), 1, "farmd: read\n"),
        (Ending::Fault(ServeFault::Write), 1, "farmd: write\n"),
        (Ending::Fault(ServeFault::Memory), 1, "farmd: memory\n"),
        (Ending::Fault(ServeFault::Thread), 1, "farmd: thread\n"),
    ];
    for (ending, status, text) in &endings {
        let mut output = Vec::new(rt.alloc());
        let mut errors = Vec::new(rt.alloc());
        let ended = ending.conclude(&mut output, &mut errors);
        assert_same(&rt, &ended, &ExitCode::from(*status));
        assert!(rt; output.is_empty() && errors.as_slice() == text.as_bytes());
    }
}
