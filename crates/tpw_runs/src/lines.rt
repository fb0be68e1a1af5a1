//! The outcome of a packet, as a line.

ghost use Rattle.std.specs.Prelude.{◌≡◌, ◌++◌, OnOk};
ghost use Rattle.std.specs.Option.{option_map};
ghost use Rattle.hex.specs.Hex.{encode_lower};
ghost use Rattle.tpw_runs.specs.Lines.{cause_text, words_text, message_text, head_text, trace_text, done_text};
ghost use Rattle.tpw_runs.specs.Lines.{line_of, whole_line};
ghost use Rattle.tpw_runs.specs.Lines.{is_expected, expected_head, result_text, expected_text, difference_text};
ghost use Rattle.tpw_runs.specs.Lines.{raw_text, entry_text, is_other};

use crate::form::{Expected, Form, Style};
use std::alloc::AllocError;
use std::io::Write;
use tp_collect::{Done, Entry, LostCause};
use tp_link::{DeviceFault, Link, LinkFault};

/// Why a packet was lost.
pub fn cause_text(cause: LostCause) -> &'static str
    ensures { result.now ≡ cause_text cause }
{
    match cause {
        LostCause::Link(
            LinkFault {
                link: Link::Trace,
                code: DeviceFault::Full,
            },
        ) => "its trace has more than 256 bytes",
        LostCause::Link(_) => "a device has failed",
        LostCause::Stopped => "the batch was stopped",
    }
}

/// Writes bytes in hexadecimal.
fn write_hexadecimal(out: &mut Vec<u8>, bytes: &[u8]) -> Result<(), AllocError>
    ensures { OnOk result (out.new.items ≡ out.old.items ++ encode_lower bytes.now) }
{
    let digits = hex::encode(*out.allocator(), bytes)?;
    out.extend_from_slice(digits.as_bytes())
}

/// Writes the words of a message as signed numbers, each behind a space.
fn write_words(out: &mut Vec<u8>, bytes: &[u8]) -> Result<(), AllocError>
    ensures { OnOk result (out.new.items ≡ out.old.items ++ words_text bytes.now) }
{
    let mut rest = bytes;
    while let Some((word, behind)) = rest.split_first_chunk::<4>() {
        let number = i32::from_le_bytes(*word);
        write!(out, " {number}").or(Err(AllocError))?;
        rest = behind;
    }
    Ok(())
}

/// Writes a message.
pub fn write_message(out: &mut Vec<u8>, style: Style, bytes: &[u8]) -> Result<(), AllocError>
    ensures { OnOk result (out.new.items ≡ out.old.items ++ message_text style bytes.now) }
{
    if style.hexadecimal {
        out.push(b' ')?;
        write_hexadecimal(out, bytes)
    } else {
        write_words(out, bytes)
    }
}

/// Writes what a result's line has before its words.
fn write_head(
    out: &mut Vec<u8>,
    budget: u32,
    number: usize,
    error: bool,
    steps: u32,
) -> Result<(), AllocError>
    ensures { OnOk result (out.new.items ≡ out.old.items ++ head_text budget number error steps) }
{
    let flag = u8::from(error);
    write!(out, "{number}  flag {flag}  {steps} of {budget} ").or(Err(AllocError))
}

/// Writes a trace, where it is asked for.
pub fn write_trace(out: &mut Vec<u8>, style: Style, trace: &[u8]) -> Result<(), AllocError>
    ensures { OnOk result (out.new.items ≡ out.old.items ++ trace_text style trace.now) }
{
    if !style.trace {
        return Ok(());
    }
    out.extend_from_slice(b"\n  trace")?;
    write_message(out, style, trace)
}

/// Writes a result, and the trace where it is asked for.
fn write_done(
    out: &mut Vec<u8>,
    style: Style,
    budget: u32,
    number: usize,
    done: &Done,
) -> Result<(), AllocError>
    ensures { OnOk result (out.new.items ≡ out.old.items ++ done_text style budget number done.now) }
{
    write_head(out, budget, number, done.error, done.steps)?;
    write_message(out, style, done.result.as_slice())?;
    write_trace(out, style, done.trace.as_slice())
}

/// Writes what became of a packet.
fn write_line(
    out: &mut Vec<u8>,
    style: Style,
    budget: u32,
    number: usize,
    entry: &Entry,
) -> Result<(), AllocError>
    ensures { OnOk result (out.new.items ≡ out.old.items ++ line_of style budget number entry.now) }
{
    match entry {
        Entry::Done(done) => write_done(out, style, budget, number, done),
        Entry::Lost(cause) => {
            let why = cause_text(*cause);
            write!(out, "{number}  LOST  {why}").or(Err(AllocError))
        }
    }
}

/// Whether a packet has the result and the error flag that are expected.
fn is_expected(entry: &Entry, expected: Option<&Expected>) -> bool
    ensures { result ≡ is_expected entry.now (option_map (λ e. e.now) expected.entry) }
{
    match (entry, expected) {
        (Entry::Done(done), Some(wanted)) => {
            done.result.as_slice() == wanted.message.as_slice()
                && u8::from(done.error) == u8::from(wanted.error)
        }
        _ => false,
    }
}

/// Writes the line of what became of a packet, and a line feed.
pub fn write_whole_line(
    out: &mut Vec<u8>,
    style: Style,
    budget: u32,
    number: usize,
    entry: &Entry,
) -> Result<(), AllocError>
    ensures { OnOk result (out.new.items ≡ out.old.items ++ whole_line style budget number entry.now) }
{
    write_line(out, style, budget, number, entry)?;
    out.push(b'\n')?;
    Ok(())
}

/// Writes what the line of an expected result has before its words.
fn write_expected_head(out: &mut Vec<u8>, error: bool) -> Result<(), AllocError>
    ensures { OnOk result (out.new.items ≡ out.old.items ++ expected_head error) }
{
    let wanted = u8::from(error);
    write!(out, "  expected  flag {wanted} ").or(Err(AllocError))
}

/// Writes a result that was expected, on a line of its own.
fn write_result(out: &mut Vec<u8>, style: Style, expected: &Expected) -> Result<(), AllocError>
    ensures { OnOk result (out.new.items ≡ out.old.items ++ result_text style expected.now) }
{
    write_expected_head(out, expected.error)?;
    write_message(out, style, expected.message.as_slice())?;
    out.push(b'\n')?;
    Ok(())
}

/// Writes what was expected, on a line of its own.
pub fn write_expected(
    out: &mut Vec<u8>,
    style: Style,
    expected: Option<&Expected>,
) -> Result<(), AllocError>
    ensures { OnOk result (out.new.items ≡ out.old.items
        ++ expected_text style (option_map (λ e. e.now) expected.entry)) }
{
    match expected {
        Some(expected) => write_result(out, style, expected),
        None => out.extend_from_slice(b"  expected nothing\n"),
    }
}

/// Writes the line of a packet whose result or error flag is not the expected one, and what was expected. Of other
/// packets it writes nothing.
fn write_difference(
    out: &mut Vec<u8>,
    style: Style,
    expected: Option<&Expected>,
    budget: u32,
    number: usize,
    entry: &Entry,
) -> Result<(), AllocError>
    ensures { OnOk result (out.new.items ≡ out.old.items
        ++ difference_text style (option_map (λ e. e.now) expected.entry) budget number entry.now) }
{
    if is_expected(entry, expected) {
        return Ok(());
    }
    write_whole_line(out, style, budget, number, entry)?;
    write_expected(out, style, expected)
}

/// Writes the bytes of a result.
fn write_raw(out: &mut Vec<u8>, entry: &Entry) -> Result<(), AllocError>
    ensures { OnOk result (out.new.items ≡ out.old.items ++ raw_text entry.now) }
{
    match entry {
        Entry::Done(done) => out.extend_from_slice(done.result.as_slice()),
        Entry::Lost(_) => Ok(()),
    }
}

/// Writes what became of the packet of a number, in a form, behind what is in `out`. Where a growth is refused, part of
/// it may be written.
pub fn write_entry(
    out: &mut Vec<u8>,
    form: Form<'_>,
    budget: u32,
    number: usize,
    entry: &Entry,
) -> Result<(), AllocError>
    ensures { OnOk result (out.new.items ≡ out.old.items ++ entry_text form.entry budget number entry.now) }
{
    match form {
        Form::Lines(style) => write_whole_line(out, style, budget, number, entry),
        Form::Raw => write_raw(out, entry),
        Form::Differences(style, expected) => {
            write_difference(out, style, expected.get(number), budget, number, entry)
        }
    }
}

/// Whether another result was expected of the packet of a number.
pub fn is_other(form: Form<'_>, number: usize, entry: &Entry) -> bool
    ensures { result ≡ is_other form.entry number entry.now }
{
    match form {
        Form::Differences(_, expected) => !is_expected(entry, expected.get(number)),
        Form::Lines(_) | Form::Raw => false,
    }
}
