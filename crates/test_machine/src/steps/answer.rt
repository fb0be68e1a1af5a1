//! The outcome of a vector, spelled as vectors spell it.

use super::fields::Cells;
use super::run::{Ran, SENT, TRACED};
use super::vector::Vector;
use anyhow::Result;
use std::alloc::Global;
use std::fmt::Write;
use tp_link::{DeviceFault, Link, LinkFault};
use tp_outcome::Outcome;
use tpw_machine::{Phase, Registers, RunFault};

/// A packet that is not whole.
const SHORT: LinkFault = LinkFault {
    link: Link::Source,
    code: DeviceFault::Short,
};

/// No message was moved.
fn is_quiet(vector: &Vector, ran: &Ran) -> bool {
    ran.source.bytes() == vector.to_come.as_slice()
        && ran.sink.bytes() == SENT
        && ran.trace.bytes() == TRACED
}

/// Nothing is another than before.
fn is_same(vector: &Vector, ran: &Ran) -> bool {
    is_quiet(vector, ran)
        && ran.registers == vector.registers
        && ran.phase == vector.phase
        && ran.cells == vector.cells
}

/// Writes a register, which may be undefined.
fn write_register(out: &mut String, register: Option<u32>) -> Result<()> {
    match register {
        Some(value) => write!(out, " {value:08x}")?,
        None => out.push_str(" -")?,
    }
    Ok(())
}

/// Writes the registers, from Iptr to the flag.
fn write_registers(out: &mut String, now: &Registers) -> Result<()> {
    let sign = if now.iptr < 0 { "-" } else { "" };
    let distance = now.iptr.unsigned_abs();
    write!(
        out,
        "L {sign}{distance:x} {:08x} {:08x}",
        now.oreg, now.wptr
    )?;
    write_register(out, now.areg)?;
    write_register(out, now.breg)?;
    write_register(out, now.creg)?;
    write!(out, " {}", u32::from(now.error))?;
    Ok(())
}

/// Writes a byte, which may be undefined.
fn write_cell(out: &mut String, cell: Option<u8>) -> Result<()> {
    match cell {
        Some(byte) => write!(out, "{byte:02x}")?,
        None => out.push_str("--")?,
    }
    Ok(())
}

/// Writes the bytes that are another than before, each stretch behind its offset.
fn write_changes(out: &mut String, before: &Cells, now: &Cells) -> Result<()> {
    let mut any = false;
    let mut was_changed = false;
    let mut offset = 0u32;
    for (old, new) in before.iter().zip(now) {
        let is_changed = old != new;
        if is_changed && !was_changed {
            out.push_str(if any { "," } else { " " })?;
            write!(out, "{offset:x}:")?;
            any = true;
        }
        if is_changed {
            write_cell(out, *new)?;
        }
        was_changed = is_changed;
        offset = offset.saturating_add(1);
    }
    if !any {
        out.push_str(" -")?;
    }
    Ok(())
}

/// Writes how many bytes were taken from the front.
fn write_taken(out: &mut String, all: &[u8], left: &[u8]) -> Result<()> {
    match all.strip_suffix(left) {
        Some(taken) => write!(out, " {:x}", taken.len())?,
        None => out.push_str(" lost")?,
    }
    Ok(())
}

/// Writes the bytes behind those that were sent before.
fn write_sent(out: &mut String, before: &[u8], all: &[u8]) -> Result<()> {
    let Some(more) = all.strip_prefix(before) else {
        out.push_str(" lost")?;
        return Ok(());
    };
    out.push_str(if more.is_empty() { " -" } else { " " })?;
    for byte in more {
        write!(out, "{byte:02x}")?;
    }
    Ok(())
}

/// How vectors spell a phase.
fn phase_number(phase: Phase) -> u32 {
    match phase {
        Phase::BeforePacket => 0,
        Phase::BeforeResult => 1,
        Phase::AfterResult => 2,
        Phase::Stopped => 3,
    }
}

/// Writes the state that the steps have led to.
fn write_state(out: &mut String, vector: &Vector, ran: &Ran) -> Result<()> {
    write_registers(out, &ran.registers)?;
    write!(out, " {}", phase_number(ran.phase))?;
    write_changes(out, &vector.cells, &ran.cells)?;
    write_taken(out, &vector.to_come, ran.source.bytes())?;
    write_sent(out, SENT, ran.sink.bytes())?;
    write_sent(out, TRACED, ran.trace.bytes())
}

/// Writes the end of a run, after all of the steps or before the first.
fn write_end(out: &mut String, vector: &Vector, ran: &Ran, outcome: &Outcome) -> Result<()> {
    if outcome.error != ran.registers.error || ran.phase != Phase::Stopped {
        out.push_str("another outcome")?;
    } else if outcome.steps == vector.steps {
        write_state(out, vector, ran)?;
    } else if outcome.steps != 0 || !is_same(vector, ran) {
        write!(out, "ended after {} steps", outcome.steps)?;
    } else {
        out.push_str("E")?;
    }
    Ok(())
}

/// The outcome of a vector.
pub(crate) fn text(alloc: Global, vector: &Vector, ran: &Ran) -> Result<String> {
    let mut out = String::new(alloc);
    match &ran.answer {
        Ok(outcome) => write_end(&mut out, vector, ran, outcome)?,
        Err(RunFault::Limit) if ran.phase != Phase::Stopped => write_state(&mut out, vector, ran)?,
        Err(RunFault::Limit) => out.push_str("stopped, and at the limit")?,
        Err(_) if !is_quiet(vector, ran) => out.push_str("a message was moved")?,
        Err(RunFault::Stuck(address)) => write!(out, "S {address:08x}")?,
        Err(RunFault::Link(fault)) if *fault == SHORT => out.push_str("W")?,
        Err(RunFault::Link(fault)) => write!(out, "{fault}")?,
    }
    Ok(out)
}
