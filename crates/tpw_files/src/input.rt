//! Where a command reads: standard input or a file, as text or as an image in hexadecimal.

ghost use Rattle.std.specs.Prelude.{◌≡◌, ◌≤◌, ◌+◌, ◌<◌, ◌^◌, ◌⊎◌, IfOk, IfErr, length};
ghost use Rattle.std.specs.List.{filter, prefix_len};
ghost use Rattle.std.specs.Char.{is_ascii_hexdigit};
ghost use Rattle.tpw_files.specs.Failures.{of_text};
ghost use Rattle.tpw_files.specs.Names.{is_standard};
ghost use Rattle.tpw_files.specs.declared.input.TextFault.{TextFault};
ghost use Rattle.tpw_files.specs.declared.input.TextFault.TheVariants.{Memory, NotADigit};
ghost use Rattle.tpw_files.specs.Unread.{IsNoText, IsNotUtf8};
ghost use Rattle.tpw_files.specs.Texts.{IsFault, Says, is_line_end, is_digit_or_line_end};

use crate::failure::Failure;
use crate::fault::{InputFault, position_behind};
use std::alloc::{AllocError, AllocFailed, Global};
use std::fmt;
use std::fs::File;
use std::io::{ErrorKind, Read};
use std::rt::Files;
use thiserror::Error;

/// Why a text says no bytes. A column is a byte's number in the text, counted from 1.
#[derive(Clone, Copy, Debug, PartialEq, Eq, Error)]
pub enum TextFault {
    /// In this column is no hexadecimal digit.
    #[error("no hexadecimal digit in column {0}")]
    NotADigit(usize),
    /// The digits end before this column with half a byte.
    #[error("the second digit of a byte is missing in column {0}")]
    HalfAByte(usize),
    /// A growth was refused.
    #[error("memory")]
    Memory,
}

impl From<AllocError> for TextFault {
    ghost from_gives = { λ _ e. e ≡ Memory };

    fn from(_: AllocError) -> Self {
        TextFault::Memory
    }
}

impl<T: Drop> From<AllocFailed<T>> for TextFault {
    ghost from_gives = { λ _ e. e ≡ Memory };

    fn from(_: AllocFailed<T>) -> Self {
        TextFault::Memory
    }
}

/// Whether a byte ends a line: a line feed, or the carriage return before it.
fn is_line_end(byte: u8) -> bool
    ensures { result ≡ is_line_end byte }
{
    byte == b'\n' || byte == b'\r'
}

/// The digits of a text that begins behind `leading` bytes and has line ends beside its digits; or its first other
/// byte.
fn digits_of(alloc: Global, inner: &[u8], leading: usize) -> Result<Vec<u8>, TextFault>
    requires { leading + length inner.now < 2 ^ 63 }
    ensures digits { IfOk result (λ digits. (prefix_len is_digit_or_line_end inner.now ≡ length inner.now)
        × (digits.items ≡ filter is_ascii_hexdigit inner.now)) }
    ensures fault { IfErr result (λ e. (e ≡ Memory) ⊎ ((prefix_len is_digit_or_line_end inner.now < length inner.now)
        × (e ≡ NotADigit (leading + prefix_len is_digit_or_line_end inner.now + 1)))) }
{
    let mut digits = Vec::new(alloc);
    for (i, &byte) in inner.iter().enumerate() {
        if byte.is_ascii_hexdigit() {
            digits.push(byte)?;
        } else if !is_line_end(byte) {
            return Err(TextFault::NotADigit(leading + i + 1));
        }
    }
    Ok(digits)
}

/// The bytes that a text says in hexadecimal, or the column of its first fault. White space at its ends is passed over,
/// and line ends are.
pub fn bytes_of(alloc: Global, text: &[u8]) -> Result<Vec<u8>, TextFault>
    ensures bytes { IfOk result (λ bytes. Says text.now bytes.items) }
    ensures fault { IfErr result (IsFault text.now) }
{
    let rest = text.trim_ascii_start();
    let inner = rest.trim_ascii_end();
    let leading = text.len() - rest.len();
    let digits = digits_of(alloc, inner, leading)?;
    if digits.len() % 2 == 1 {
        return Err(TextFault::HalfAByte(leading + inner.len() + 1));
    }
    // An even number of digits: memory alone can be missing.
    match hex::decode(alloc, digits.as_slice()) {
        Ok(bytes) => Ok(bytes),
        Err(_) => Err(TextFault::Memory),
    }
}

/// The bytes that a text says in hexadecimal.
pub fn hex_bytes(alloc: Global, text: &[u8]) -> Result<Vec<u8>, Failure>
    ensures bytes { IfOk result (λ bytes. Says text.now bytes.items) }
    ensures fault { IfErr result (λ e. (fault : TextFault) × IsFault text.now fault × (e ≡ of_text text.now fault)) }
{
    match bytes_of(alloc, text) {
        Ok(bytes) => Ok(bytes),
        Err(TextFault::NotADigit(column)) => Err(Failure::Input(InputFault::NotADigit(
            position_behind(text, column - 1),
        ))),
        Err(TextFault::HalfAByte(column)) => Err(Failure::Input(InputFault::HalfAByte(
            position_behind(text, column - 1),
        ))),
        Err(TextFault::Memory) => Err(Failure::Memory),
    }
}

/// The text that bytes are.
fn utf8(bytes: &[u8]) -> Result<&str, Failure>
    ensures text { IfOk result (λ text. text.now ≡ bytes.now) }
    ensures fault { IfErr result (IsNotUtf8 bytes.now) }
{
    match str::from_utf8(bytes) {
        Ok(text) => Ok(text),
        Err(error) => Err(Failure::Input(InputFault::NotUtf8(position_behind(
            bytes,
            error.valid_up_to(),
        )))),
    }
}

/// A byte order mark, U+FEFF, in UTF-8.
const MARK: [u8; 3] = [0xEF, 0xBB, 0xBF];

/// The text that bytes are. It begins with no byte order mark, and its lines do not end with carriage returns alone.
pub fn text_of(bytes: &[u8]) -> Result<&str, Failure>
    ensures text { IfOk result (λ text. text.now ≡ bytes.now) }
    ensures fault { IfErr result (IsNoText bytes.now) }
{
    if bytes.starts_with(&MARK) {
        return Err(Failure::Input(InputFault::ByteOrderMark));
    }
    if bytes.trim_ascii_end().contains(&b'\r') && !bytes.contains(&b'\n') {
        return Err(Failure::Input(InputFault::CarriageReturns));
    }
    utf8(bytes)
}

/// Where a command reads.
#[derive(Debug, Drop)]
pub enum Input {
    Standard,
    /// The file of this name.
    File(String),
}

/// The name of standard input where a file is asked for.
const STANDARD: &str = "-";

/// Whether a file's name is that of standard input.
pub fn is_standard(name: &str) -> bool
    ensures { result ≡ is_standard name.now }
{
    name == STANDARD
}

impl Input {
    /// The input of a name: the file, or standard input by its name.
    pub fn named(alloc: Global, name: &str) -> Result<Input, AllocError> {
        if is_standard(name) {
            return Ok(Input::Standard);
        }
        Ok(Input::File(String::from_str(alloc, name)?))
    }
}

impl fmt::Display for Input {
    fn fmt<W: fmt::Write>(&self, f: &mut fmt::Formatter<W>) -> fmt::Result {
        match self {
            Input::Standard => f.write_str("tpw: standard input"),
            Input::File(name) => f.write_str(name.as_str()),
        }
    }
}

/// The most bytes of an input: 16 MB.
const MAX_BYTES: usize = 16_000_000;

/// Reads all that there is, where it is not too long.
fn read_all<R: Read>(alloc: Global, reader: &mut R) -> Result<Vec<u8>, Failure>
    ensures { IfOk result (λ text. length text.items ≤ 16000000) }
{
    let mut text = Vec::new(alloc);
    let mut limited = reader.by_ref().take(MAX_BYTES as u64 + 1);
    match limited.read_to_end(&mut text) {
        Ok(_) if text.len() > MAX_BYTES => Err(Failure::Input(InputFault::TooLong)),
        Ok(_) => Ok(text),
        Err(error) if error.kind() == ErrorKind::OutOfMemory => Err(Failure::Memory),
        Err(error) => Err(Failure::Input(InputFault::Unread(error))),
    }
}

/// Where inputs are read: the files, and what standard input is.
#[derive(Drop)]
pub struct Inputs<'a, T, R> {
    pub files: &'a T,
    pub standard: &'a mut R,
}

impl<T: Files, R: Read> Inputs<'_, T, R> {
    /// Reads all of an input.
    pub fn read(&mut self, alloc: Global, input: &Input) -> Result<Vec<u8>, Failure>
        ensures { IfOk result (λ text. length text.items ≤ 16000000) }
    {
        match input {
            Input::Standard => read_all(alloc, self.standard),
            Input::File(name) => self.read_file(alloc, name.as_str()),
        }
    }

    /// Reads all of the file of a name, or of standard input by its name.
    pub fn read_file(&mut self, alloc: Global, name: &str) -> Result<Vec<u8>, Failure>
        ensures { IfOk result (λ text. length text.items ≤ 16000000) }
    {
        if is_standard(name) {
            return read_all(alloc, self.standard);
        }
        match File::open(self.files, name) {
            Ok(mut file) => read_all(alloc, &mut file),
            Err(error) => Err(Failure::Input(InputFault::Unread(error))),
        }
    }
}
