//! An image as text, with where the bytes of its runs go.

ghost use Rattle.std.specs.Prelude.{◌≡◌, ℕ, List, IfOk, OnOk, string_bytes};
ghost use Rattle.std.specs.Io.KnownBytes.{Appends};
ghost use Rattle.tpw_files.specs.declared.outcome.Outcome.TheVariants.{Good};
ghost use Rattle.tpw_judging.specs.Programs.{AreTextOf, IsDisassembled};

use std::alloc::Global;
use std::io::Write;
use tp_image::read_image;
use tpw_asm::{Program, addresses, disassemble};
use tpw_files::{Failure, Outcome, hex_bytes, write_line};
use tpw_text::{LineRemark, LoopRemark, Remarks, source_text};
use tpw_why::{Costs, Counted, LoopCost, Verdict, costs_of, judge};

/// The remark on each loop.
fn loop_remarks(alloc: Global, loops: &[LoopCost]) -> Result<Vec<LoopRemark>, Failure> {
    let mut remarks = Vec::new(alloc);
    for LoopCost {
        head,
        lend,
        turns,
        turn,
    } in loops {
        remarks.push(LoopRemark {
            head: *head,
            lend: *lend,
            turns: *turns,
            turn: *turn,
        })?;
    }
    Ok(remarks)
}

/// The remark on each line.
fn line_remarks(
    alloc: Global,
    places: &[u32],
    by_address: &[Option<Counted>],
) -> Result<Vec<Option<LineRemark>>, Failure> {
    let mut remarks = Vec::new(alloc);
    for address in places {
        let remark = match by_address.get(*address as usize) {
            Some(Some(cost)) => Some(LineRemark {
                address: *address,
                on: cost.whole,
            }),
            _ => None,
        };
        remarks.push(remark)?;
    }
    Ok(remarks)
}

/// A program as text, and of an accepted image where its bytes go.
fn text_of(alloc: Global, program: &Program, costs: Option<&Costs>) -> Result<String, Failure>
    ensures { IfOk result (λ text. AreTextOf program.now (string_bytes text)) }
{
    let Some(costs) = costs else {
        return Ok(source_text(alloc, program, None)?);
    };
    let loops = loop_remarks(alloc, &costs.loops)?;
    let places = addresses(alloc, program)?;
    let lines = line_remarks(alloc, &places, &costs.by_address)?;
    let remarks = Remarks {
        budget: costs.budget,
        loops: &loops,
        lines: &lines,
    };
    Ok(source_text(alloc, program, Some(&remarks))?)
}

/// Where the bytes of an image go, if it is accepted.
fn costs_if_accepted(alloc: Global, bytes: &[u8]) -> Result<Option<Costs>, Failure> {
    match judge(alloc, bytes)? {
        Verdict::Accepted(accepted) => Ok(Some(costs_of(alloc, &accepted)?)),
        Verdict::Refused { .. } => Ok(None),
    }
}

/// Writes the image that a text says as assembly text. Of an accepted one, comments say where its bytes go.
pub fn disassemble_image<W: Write>(
    alloc: Global,
    text: &[u8],
    writer: &mut W,
) -> Result<Outcome, Failure>
    ensures written { OnOk result ((written : List ℕ) × IsDisassembled text.now written
        × Appends (W.contents writer.old) (W.contents writer.new) written) }
    ensures good { IfOk result (λ outcome. outcome ≡ Good) }
{
    let bytes = hex_bytes(alloc, text)?;
    let image = read_image(alloc, &bytes)?;
    let program = disassemble(alloc, &image)?;
    let costs = costs_if_accepted(alloc, &bytes)?;
    let text = text_of(alloc, &program, costs.as_ref())?;
    write_line(writer, text.as_str())
}
