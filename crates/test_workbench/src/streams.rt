//! Reads and writes that fail, inputs without end, and words that are none.

use crate::asserts::{assert_same, unwrap};
use crate::program::{capitals, ran, write_file};
use std::env::{Env, FillError};
use std::io;
use std::io::{Read, Write};
use std::process::ExitCode;
use test_samples::INCREMENT;
use test_samples::streams::{Broken, Unflushed, Words};

#[test]
fn reports_a_failed_read(rt: HostRuntime) {
    let mut output = Vec::new(rt.alloc());
    let ended = ran(
        &rt,
        rt.alloc(),
        &Words(&["tpw", "step"]),
        &mut Broken,
        &mut output,
    );
    assert_same(&rt, &ended.status, &ExitCode::from(1));
    assert!(rt; output.is_empty());
    assert!(rt; ended.errors.as_slice() == b"tpw: standard input: broken pipe\n".as_slice());
}

/// Takes nothing, and fails as the system does on a full disk.
#[derive(Drop)]
struct Full;

impl Write for Full {
    fn write(&mut self, _buf: &[u8]) -> io::Result<usize> {
        Err(io::Error::from_raw_os_error(28))
    }

    fn flush(&mut self) -> io::Result<()> {
        Ok(())
    }
}

/// Command lines that write something, each another thing.
const WRITING: [&[&str]; 7] = [
    &["tpw", "step"],
    &["tpw", "why"],
    &["tpw", "list"],
    &["tpw", "dis"],
    &["tpw", "run", "--words", "1"],
    &["tpw", "--help"],
    &["tpw", "--version"],
];

/// A full disk is named, whatever is written.
#[test]
fn reports_a_full_disk(rt: HostRuntime) {
    let increment = capitals(&rt, rt.alloc(), INCREMENT);
    for words in WRITING {
        let mut input = increment.as_bytes();
        let ended = ran(&rt, rt.alloc(), &Words(words), &mut input, &mut Full);
        let errors = unwrap(&rt, str::from_utf8(&ended.errors));
        let wanted = "tpw: write: No space left on device (os error 28)\n";
        assert_same(&rt, &errors, &wanted);
        assert_same(&rt, &ended.status, &ExitCode::from(1));
    }
}

/// A reader that has gone is no fault, when it is written to or when it is flushed.
#[test]
fn leaves_a_reader_that_has_gone(rt: HostRuntime) {
    let increment = capitals(&rt, rt.alloc(), INCREMENT);
    for words in WRITING {
        let mut input = increment.as_bytes();
        let broken = ran(&rt, rt.alloc(), &Words(words), &mut input, &mut Broken);
        let mut input = increment.as_bytes();
        let unflushed = ran(&rt, rt.alloc(), &Words(words), &mut input, &mut Unflushed);
        for ended in [broken, unflushed] {
            assert!(rt; ended.errors.is_empty());
            assert_same(&rt, &ended.status, &ExitCode::SUCCESS);
        }
    }
}

/// Gives bytes without end, and counts them.
#[derive(Drop)]
struct Endless {
    given: usize,
}

impl Read for Endless {
    fn read(&mut self, buf: &mut [u8]) -> io::Result<usize> {
        self.given = self.given.saturating_add(buf.len());
        Ok(buf.len())
    }
}

/// A worker, packets and results without end are refused, and are not read on.
#[test]
fn refuses_what_is_too_long(rt: HostRuntime) {
    let increment = capitals(&rt, rt.alloc(), INCREMENT);
    write_file(&rt, "increment.image", increment.as_str());
    let cases = [
        ["tpw", "asm"].as_slice(),
        ["tpw", "run", "--packets", "-", "increment.image"].as_slice(),
        [
            "tpw",
            "run",
            "--words",
            "1",
            "--expect",
            "-",
            "increment.image",
        ]
        .as_slice(),
    ];
    for words in cases {
        let mut output = Vec::new(rt.alloc());
        let mut input = Endless { given: 0 };
        let ended = ran(&rt, rt.alloc(), &Words(words), &mut input, &mut output);
        let errors = unwrap(&rt, str::from_utf8(&ended.errors));
        let wanted = "tpw: standard input: it is longer than 16 MB\n";
        assert_same(&rt, &errors, &wanted);
        assert_same(&rt, &ended.status, &ExitCode::from(1));
        assert!(rt; output.is_empty());
        assert_same(&rt, &input.given, &16_000_001);
    }
}

/// A command line of one word, which is no text.
#[derive(Drop)]
struct NotText;

impl Env for NotText {
    fn arg(&self, i: usize, buf: &mut [u8]) -> Result<usize, FillError> {
        match (i, buf.first_mut()) {
            (0, Some(byte)) => {
                *byte = 0xFF;
                Ok(1)
            }
            (0, None) => Err(FillError::TooLong),
            _ => Err(FillError::NotPresent),
        }
    }

    fn var(&self, _name: &str, _buf: &mut [u8]) -> Result<usize, FillError> {
        Err(FillError::NotPresent)
    }

    fn var_at(&self, _i: usize, _buf: &mut [u8]) -> Result<usize, FillError> {
        Err(FillError::NotPresent)
    }
}

/// Command lines that no shell gives: a word that is no text is refused, and no words are as the program's name alone.
#[test]
fn refuses_words_that_are_none(rt: HostRuntime) {
    let mut output = Vec::new(rt.alloc());
    let not_text = ran(&rt, rt.alloc(), &NotText, &mut Broken, &mut output);
    let errors = unwrap(&rt, str::from_utf8(&not_text.errors));
    let wanted = "error: a word of the command line is not UTF-8\n";
    assert_same(&rt, &errors, &wanted);
    assert_same(&rt, &not_text.status, &ExitCode::from(2));
    let name = ran(&rt, rt.alloc(), &Words(&["tpw"]), &mut Broken, &mut output);
    let nothing = ran(&rt, rt.alloc(), &Words(&[]), &mut Broken, &mut output);
    assert!(rt; nothing.errors.as_slice() == name.errors.as_slice());
    assert_same(&rt, &nothing.status, &ExitCode::from(2));
    assert!(rt; output.is_empty());
}
