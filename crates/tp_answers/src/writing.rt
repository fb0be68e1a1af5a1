//! The writer of answers.

ghost use Rattle.std.specs.Prelude.{◌≡◌, ◌++◌, ◌≤◌, codes, decimal, length, OnOk};
ghost use Rattle.std.specs.List.{flat_map};
ghost use Rattle.hex.specs.Hex.{encode_lower};
ghost use Rattle.tp_decode.specs.Lines.{lines_from};
ghost use Rattle.tp_collect.specs.DoneValue.{most_message_bytes, most_trace};
ghost use Rattle.tp_answers.specs.Texts.{text_line, done_line, result_line, trace_text, trace_line, outcome_lines};
ghost use Rattle.tp_answers.specs.Texts.{outcomes_lines, run_lines, session_lines, answer_text};

use crate::answer::Answer;
use crate::outcomes::{AllOutcomes, Outcomes, PacketRun};
use itoa::Buffer;
use std::alloc::{AllocError, Global};
use std::io::Write;
use tp_decode::Listing;

/// Writes bytes in hexadecimal.
fn write_hex(out: &mut Vec<u8>, bytes: &[u8]) -> Result<(), AllocError>
    requires { length bytes.now ≤ most_message_bytes }
    ensures { OnOk result (out.new.items ≡ out.old.items ++ encode_lower bytes.now) }
{
    let start = out.len();
    out.resize(start + 2 * bytes.len(), 0)?;
    match hex::encode_to_slice(bytes, &mut out[start..]) {
        Ok(()) => Ok(()),
        Err(_) => unreachable!(),
    }
}

/// Writes a number in decimal.
fn write_number(out: &mut Vec<u8>, number: u64) -> Result<(), AllocError>
    ensures { OnOk result (out.new.items ≡ out.old.items ++ decimal number) }
{
    let mut digits = Buffer::new();
    out.extend_from_slice(digits.format(number).as_bytes())
}

/// Writes a number in decimal, and a space.
fn write_field(out: &mut Vec<u8>, number: u64) -> Result<(), AllocError>
    ensures { OnOk result (out.new.items ≡ out.old.items ++ decimal number ++ codes " ") }
{
    write_number(out, number)?;
    out.push(b' ')?;
    Ok(())
}

/// Writes the line of a result.
fn write_result(out: &mut Vec<u8>, number: usize, run: &PacketRun) -> Result<(), AllocError>
    ensures { OnOk result (out.new.items ≡ out.old.items ++ result_line number run.now) }
{
    out.extend_from_slice(b"R ")?;
    write_field(out, number as u64)?;
    write_field(out, u64::from(run.error))?;
    write_field(out, u64::from(run.steps))?;
    write_hex(out, run.result.as_slice())?;
    out.push(b'\n')?;
    Ok(())
}

/// Writes the bytes of a trace.
#[tactic(auto, using(crate::proofs::Texts::text_of_trace))]
fn write_trace_bytes(out: &mut Vec<u8>, trace: &[u8]) -> Result<(), AllocError>
    requires { length trace.now ≤ most_trace }
    ensures { OnOk result (out.new.items ≡ out.old.items ++ trace_text trace.now) }
{
    if trace.is_empty() {
        out.push(b'-')?;
        return Ok(());
    }
    write_hex(out, trace)
}

/// Writes the line of a result's trace.
fn write_trace(out: &mut Vec<u8>, number: usize, run: &PacketRun) -> Result<(), AllocError>
    ensures { OnOk result (out.new.items ≡ out.old.items ++ trace_line number run.now) }
{
    write!(out, "T {number} ").or(Err(AllocError))?;
    write_trace_bytes(out, run.trace.as_slice())?;
    out.push(b'\n')?;
    Ok(())
}

/// Writes what became of a packet.
fn write_outcome(
    out: &mut Vec<u8>,
    trace: bool,
    number: usize,
    outcome: &Option<PacketRun>,
) -> Result<(), AllocError>
    ensures { OnOk result (out.new.items ≡ out.old.items ++ outcome_lines trace number outcome.now) }
{
    match outcome {
        Some(run) => {
            write_result(out, number, run)?;
            if trace {
                write_trace(out, number, run)?;
            }
            Ok(())
        }
        None => write!(out, "LOST {number}\n").or(Err(AllocError)),
    }
}

/// Writes what became of packets, in order of number.
fn write_outcomes(
    out: &mut Vec<u8>,
    trace: bool,
    runs: &[Option<PacketRun>],
) -> Result<(), AllocError>
    ensures { OnOk result (out.new.items ≡ out.old.items ++ outcomes_lines trace 0 runs.now) }
{
    for (number, outcome) in runs.iter().enumerate() {
        write_outcome(out, trace, number, outcome)?;
    }
    Ok(())
}

/// Writes how many were listed or run.
fn write_done(out: &mut Vec<u8>, count: usize) -> Result<(), AllocError>
    ensures { OnOk result (out.new.items ≡ out.old.items ++ done_line count) }
{
    write!(out, "DONE {count}\n").or(Err(AllocError))
}

/// Writes what became of the packets of a session.
fn write_run(out: &mut Vec<u8>, trace: bool, outcomes: &Outcomes) -> Result<(), AllocError>
    ensures { OnOk result (out.new.items ≡ out.old.items ++ run_lines trace outcomes.now) }
{
    let runs = outcomes.runs();
    write_outcomes(out, trace, runs)?;
    write_done(out, runs.len())
}

/// Writes what became of the packets of each session, behind its name.
fn write_runs(out: &mut Vec<u8>, trace: bool, all: &AllOutcomes) -> Result<(), AllocError>
    ensures { OnOk result (out.new.items ≡ out.old.items ++ flat_map (session_lines trace) all.now) }
{
    for (name, outcomes) in all.sessions() {
        out.extend_from_slice(b"OF ")?;
        out.extend_from_slice(name.as_slice())?;
        out.push(b'\n')?;
        write_run(out, trace, outcomes)?;
    }
    Ok(())
}

/// Writes the lines of a listing.
fn write_lines(out: &mut Vec<u8>, alloc: Global, listing: &Listing) -> Result<(), AllocError>
    ensures { OnOk result (out.new.items ≡ out.old.items ++ flat_map text_line (lines_from 0 listing.now)) }
{
    for i in 0..listing.len() {
        out.extend_from_slice(listing.text(alloc, i)?.as_bytes())?;
        out.push(b'\n')?;
    }
    Ok(())
}

/// Writes the text of the answer to the line of a number, behind what is in `out`. With `trace`, each result is
/// followed by its trace. Where a growth is refused, some of it is written.
#[tactic(auto, unfolding(crate::specs::Texts::answer_text))]
pub fn write_answer(
    out: &mut Vec<u8>,
    alloc: Global,
    trace: bool,
    number: u64,
    answer: &Answer,
) -> Result<(), AllocError>
    ensures { OnOk result (out.new.items ≡ out.old.items ++ answer_text trace number answer.now) }
{
    match answer {
        Answer::Listed(boxed) => {
            let listing = boxed.listing();
            write_lines(out, alloc, listing)?;
            write_done(out, listing.len())
        }
        Answer::Yes { code_bytes, budget } => {
            out.extend_from_slice(b"YES ")?;
            write_field(out, *code_bytes as u64)?;
            write_number(out, u64::from(*budget))?;
            out.push(b'\n')?;
            Ok(())
        }
        Answer::Kept(number) => {
            out.extend_from_slice(b"KEPT ")?;
            write_number(out, *number as u64)?;
            out.push(b'\n')?;
            Ok(())
        }
        Answer::Ran(outcomes) => write_run(out, trace, outcomes),
        Answer::RanAll(all) => {
            write_runs(out, trace, all)?;
            let sessions = all.sessions().len();
            write!(out, "ALL {sessions}\n").or(Err(AllocError))
        }
        Answer::Gone => out.extend_from_slice(b"GONE\n"),
        Answer::Refused(fault) => {
            let place = fault.place(number);
            write!(out, "NO {fault} {place}\n").or(Err(AllocError))
        }
    }
}
