//! The instructions that wrote what a rule refuses.

use crate::origin::{Lost, Register, loss_of, origin_of, undefined_register, wrong_register};
use crate::refusal::{EdgeRefusal, FirstRefusal};
use crate::ways::{Way, ways_of};
use crate::writers::{Passage, Wrote, effect_on, passages_of, same_before};
use std::alloc::Global;
use std::fmt;
use std::io::Write;
use tp_check::state_at;
use tp_decode::{Instr, Listing, Placed};
use tp_flow::Nest;
use tp_image::Image;
use tp_state::{Cell, State, StateCode};
use tpw_debug::{ShowFault, SourceText};

/// The finding of the verifier, where it refuses a state.
#[derive(Clone, Copy)]
pub(crate) struct Finding<'a> {
    pub(crate) image: &'a Image,
    pub(crate) listing: &'a Listing,
    pub(crate) nest: &'a Nest,
    pub(crate) source: SourceText<'a>,
    pub(crate) found: &'a FirstRefusal,
}

/// The word at a distance from Wptr, if there is one.
fn local_word(state: &State, n: i32) -> Option<usize> {
    usize::try_from(i64::from(state.wptr) + i64::from(n)).ok()
}

/// Writes that an instruction wrote a word, and what.
fn write_writer<W: Write>(
    source: SourceText<'_>,
    word: usize,
    writer: Placed,
    did: Wrote,
    output: &mut W,
) -> Result<(), ShowFault> {
    let word = source.word(word);
    let Placed { at, instr, .. } = writer;
    writeln!(output, "written  {word} by {at} {instr}: {did}").map_err(|_| ShowFault::Write)
}

/// Writes which instructions wrote a word last on the ways to an address, or that a way leads there on which none did.
fn write_writers<W: Write>(
    alloc: Global,
    finding: Finding<'_>,
    ways: &[Way],
    word: usize,
    at: usize,
    output: &mut W,
) -> Result<(), ShowFault> {
    let Finding {
        image,
        nest,
        source,
        found,
        ..
    } = finding;
    let table = &found.table;
    let passages = passages_of(alloc, image, nest, table, ways, word)?;
    let marks = same_before(alloc, table.len(), &passages, at)?;
    if marks.first() == Some(&true) {
        let first = image.initial.get(word).copied().unwrap_or(0).cast_signed();
        let word = source.word(word);
        writeln!(
            output,
            "written  {word} by no instruction on a way: it begins as {first}"
        )
        .map_err(|_| ShowFault::Write)?;
    }
    for Passage { way, wrote } in &passages {
        if let (Some(wrote), Some(true)) = (wrote, marks.get(way.to)) {
            write_writer(source, word, way.from, *wrote, output)?;
        }
    }
    Ok(())
}

/// Writes where a register of the wrong kind comes from: the instruction that left it, and of a word that was read,
/// which instructions wrote that last.
fn write_register<W: Write>(
    alloc: Global,
    finding: Finding<'_>,
    ways: &[Way],
    register: Register,
    output: &mut W,
) -> Result<(), ShowFault> {
    let at = finding.found.refusal.instruction.at;
    let Some(origin) = origin_of(ways, at, register) else {
        return Ok(());
    };
    let name = register.name();
    let Placed {
        at: from,
        instr,
        ..
    } = origin;
    let read = match (instr, state_at(&finding.found.table, from)) {
        (Instr::Ldl(n), Some(state)) => local_word(state, n),
        _ => None,
    };
    let Some(word) = read else {
        return writeln!(output, "why      {name} is what {from} {instr} left").map_err(
            |_| ShowFault::Write,
        );
    };
    let of = finding.source.word(word);
    writeln!(
        output,
        "why      {name} is what {from} {instr} read from {of}"
    )
    .map_err(|_| ShowFault::Write)?;
    write_writers(alloc, finding, ways, word, from, output)
}

/// An instruction as a text that is shown names it: its address and its text, and the line of the text that says it.
#[derive(Clone, Copy)]
struct Shown<'a> {
    placed: Placed,
    source: SourceText<'a>,
}

impl fmt::Display for Shown<'_> {
    fn fmt<W: fmt::Write>(&self, f: &mut fmt::Formatter<W>) -> fmt::Result {
        let Placed { at, instr, .. } = self.placed;
        write!(f, "{at} {instr}")?;
        match self.source.statement_at(at) {
            Some(statement) => {
                let line = statement.line;
                write!(f, " (line {line})")
            }
            None => Ok(()),
        }
    }
}

/// Writes how a register was lost that is read, as far as one way alone leads there.
fn write_loss<W: Write>(
    finding: Finding<'_>,
    ways: &[Way],
    register: Register,
    output: &mut W,
) -> Result<(), ShowFault> {
    let source = finding.source;
    let at = finding.found.refusal.instruction.at;
    let name = register.name();
    let written = match loss_of(ways, at, register) {
        Some(Lost::Pushed(push, Some(origin))) => {
            let push = Shown {
                placed: push,
                source,
            };
            let origin = Shown {
                placed: origin,
                source,
            };
            writeln!(
                output,
                "why      {name} is lost: {push} is a fourth push, and what {origin} left goes off the stack"
            )
        }
        Some(Lost::Pushed(push, None)) => {
            let push = Shown {
                placed: push,
                source,
            };
            writeln!(
                output,
                "why      {name} is lost: {push} is a fourth push, and what is lowest goes off the stack"
            )
        }
        Some(Lost::Left(leaves)) => {
            let leaves = Shown {
                placed: leaves,
                source,
            };
            writeln!(
                output,
                "why      {name} has no value: nothing is pushed for it since {leaves}, which leaves no registers"
            )
        }
        Some(Lost::Never) => writeln!(
            output,
            "why      {name} has no value: nothing is pushed for it from the first instruction on"
        ),
        None => Ok(()),
    };
    written.map_err(|_| ShowFault::Write)
}

/// Writes which instructions wrote a word last on the edge that is refused.
fn write_entered<W: Write>(
    alloc: Global,
    finding: Finding<'_>,
    ways: &[Way],
    state: &State,
    word: usize,
    output: &mut W,
) -> Result<(), ShowFault> {
    let EdgeRefusal {
        instruction,
        edge,
        ..
    } = finding.found.refusal;
    match effect_on(finding.image, finding.nest, instruction, edge, state, word) {
        Some(did) => write_writer(finding.source, word, instruction, did, output),
        None => write_writers(alloc, finding, ways, word, instruction.at, output),
    }
}

/// Writes which instructions wrote the words last that a loop asks for and that are not as it asks.
fn write_block<W: Write>(
    alloc: Global,
    finding: Finding<'_>,
    ways: &[Way],
    state: &State,
    output: &mut W,
) -> Result<(), ShowFault> {
    let EdgeRefusal {
        instruction,
        edge,
        ..
    } = finding.found.refusal;
    let Placed { at, instr, next } = instruction;
    let nest = finding.nest;
    let entered = nest
        .target(at, next, instr, edge)
        .and_then(|to| nest.entered(at, to));
    let Some(row) = entered.and_then(|number| finding.image.loops.get(number)) else {
        return Ok(());
    };
    let control = row.control as usize;
    let count = Cell::Known(row.count.cast_signed());
    for (word, wanted) in [
        (control, Cell::Known(row.start)),
        (control.saturating_add(1), count),
    ] {
        if known_after(finding, state, word) != wanted {
            write_entered(alloc, finding, ways, state, word, output)?;
        }
    }
    Ok(())
}

/// The abstract value of a word behind the refused instruction, as far as a store of a local word shows it.
fn known_after(finding: Finding<'_>, state: &State, word: usize) -> Cell {
    let EdgeRefusal {
        instruction,
        edge,
        ..
    } = finding.found.refusal;
    match effect_on(finding.image, finding.nest, instruction, edge, state, word) {
        Some(Wrote::Stored(kind)) => kind.written(),
        Some(_) => Cell::Undef,
        None => state.cells.get(word),
    }
}

/// Writes where what is refused was written, as far as the states show it: a register that is lost or of the wrong
/// kind, a local word that may be undefined, and the block of a loop that is entered.
pub(crate) fn write_written<W: Write>(
    alloc: Global,
    finding: Finding<'_>,
    output: &mut W,
) -> Result<(), ShowFault> {
    let refusal = &finding.found.refusal;
    let at = refusal.instruction.at;
    let Some(state) = state_at(&finding.found.table, at) else {
        return Ok(());
    };
    let ways = ways_of(alloc, finding.listing, finding.nest, finding.found)?;
    match (refusal.code, refusal.instruction.instr) {
        (StateCode::S1, instr) => match undefined_register(instr, refusal.edge, state) {
            Some(register) => write_loss(finding, &ways, register, output),
            None => Ok(()),
        },
        (StateCode::S2, instr) => match wrong_register(instr, state) {
            Some(register) => write_register(alloc, finding, &ways, register, output),
            None => Ok(()),
        },
        (StateCode::S4, Instr::Ldl(n)) => match local_word(state, n) {
            Some(word) => write_writers(alloc, finding, &ways, word, at, output),
            None => Ok(()),
        },
        (StateCode::S5, _) => write_block(alloc, finding, &ways, state, output),
        _ => Ok(()),
    }
}
