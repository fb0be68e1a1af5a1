//! The meaning of packets by a text in occam, as lines.

ghost use Rattle.std.specs.Prelude.{◌≡◌, ◌++◌, IfOk, OnOk};
ghost use Rattle.tpw_occam_interpreter.specs.Workers.{IsGiven};
ghost use Rattle.tpw_occam_scoped.specs.Meaning.{meaning};
ghost use Rattle.tpw_running.specs.Checks.{given_value, given_text, lost_text, meant_head, meant_text};
ghost use Rattle.std.specs.Option.{option_map};

use std::alloc::{AllocError, Global};
use std::io::Write;
use tpw_occam_interpreter::{Given, run_worker};
use tpw_occam_scoped::Process;
use tpw_runs::{Style, write_message, write_trace};

/// The meaning of a packet: a result, or that the packet is lost.
#[derive(Drop)]
pub struct Meant {
    pub given: Option<Given>,
}

/// Writes what a result's line has before its words.
fn write_head(out: &mut Vec<u8>, number: usize, error: bool) -> Result<(), AllocError>
    ensures { OnOk result (out.new.items ≡ out.old.items ++ meant_head number error) }
{
    let flag = u8::from(error);
    write!(out, "{number}  flag {flag} ").or(Err(AllocError))
}

/// Writes the line of a packet that is lost.
fn write_lost(out: &mut Vec<u8>, number: usize) -> Result<(), AllocError>
    ensures { OnOk result (out.new.items ≡ out.old.items ++ lost_text number) }
{
    write!(out, "{number}  LOST  its trace has more than 256 bytes\n").or(Err(AllocError))
}

/// Writes the line of a result, and its trace below where it is asked for.
fn write_given(
    out: &mut Vec<u8>,
    style: Style,
    number: usize,
    given: &Given,
) -> Result<(), AllocError>
    ensures { OnOk result (out.new.items ≡ out.old.items ++ given_text style number (given_value given.now)) }
{
    write_head(out, number, given.flag)?;
    write_message(out, style, &given.result)?;
    write_trace(out, style, &given.traced)?;
    out.push(b'\n')?;
    Ok(())
}

impl Meant {
    /// The meaning of a packet by the core of a text.
    pub fn of(alloc: Global, core: &Process, packet: &[u8]) -> Result<Meant, AllocError>
        ensures { IfOk result (λ meant. IsGiven (meaning core.now packet.now) meant.given) }
    {
        Ok(Meant {
            given: run_worker(alloc, core, packet)?,
        })
    }

    /// Writes the line of the packet of a number, and its trace below where it is asked for: as a run's, without the
    /// steps.
    pub fn write_lines(
        &self,
        out: &mut Vec<u8>,
        style: Style,
        number: usize,
    ) -> Result<(), AllocError>
        ensures { OnOk result (out.new.items ≡ out.old.items
            ++ meant_text style number (option_map given_value self.now.given)) }
    {
        match &self.given {
            Some(given) => write_given(out, style, number, given),
            None => write_lost(out, number),
        }
    }
}
