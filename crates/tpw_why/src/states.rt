//! The explanation of a refusal of states.

ghost use Rattle.std.specs.Prelude.{◌≡◌};
ghost use Rattle.tp_flow.specs.NestRanges.{ranges};
ghost use Rattle.tp_state.specs.Conditions.{HasGoodLoops};
ghost use Rattle.tp_check.specs.Tables.{table_of, HasPlacedStates};

use crate::asked::asked_by;
use crate::known::{KnownPhase, KnownRegister, KnownWord};
use crate::lines::write_around;
use crate::refusal::{EdgeRefusal, FirstRefusal};
use crate::written::{Finding, write_written};
use std::alloc::Global;
use std::io::Write;
use tp_check::{asked, state_at};
use tp_decode::{Instr, Listing, Placed};
use tp_flow::{Edge, Nest};
use tp_image::{Image, LoopRow};
use tp_state::{Cell, Kind, State, StateCode, StateFault, after};
use tp_step::profile::FRAME_WORDS;
use tpw_debug::{Names, ShowFault, SourceText};

/// The number of words from which on a table of numbers is shown on one line.
const TABLE_WORDS: usize = 8;

/// The name of an edge.
fn name_of(edge: Edge) -> &'static str {
    match edge {
        Edge::Next => "Next",
        Edge::Taken => "Taken",
        Edge::Back => "Back",
        Edge::Out => "Out",
    }
}

/// Writes what is known of the registers of a state.
fn write_registers<W: Write>(state: &State, writer: &mut W) -> Result<(), ShowFault> {
    let a = KnownRegister(state.a);
    let b = KnownRegister(state.b);
    let c = KnownRegister(state.c);
    writeln!(writer, "Areg {a}; Breg {b}; Creg {c}").map_err(|_| ShowFault::Write)
}

/// Writes that words from one on up to another are known so.
fn write_stretch<W: Write>(
    source: SourceText<'_>,
    first: usize,
    last: usize,
    cell: Cell,
    writer: &mut W,
) -> Result<(), ShowFault> {
    let known = KnownWord(cell);
    let written = if first == last {
        let word = source.word(first);
        writeln!(writer, "         {word}: {known}")
    } else {
        let names = Names {
            source,
            first,
            last,
        };
        writeln!(writer, "         words {first} to {last}{names}: {known}")
    };
    written.map_err(|_| ShowFault::Write)
}

/// The last of the words from one on, of `words` in all, that have the same abstract value.
fn last_alike(state: &State, words: usize, first: usize) -> usize {
    let cell = state.cells.get(first);
    for word in first.saturating_add(1)..words {
        if state.cells.get(word) != cell {
            return word.saturating_sub(1);
        }
    }
    words.saturating_sub(1)
}

/// The last word of the table that begins at a word: words of one name, each a number that is known, and another than
/// the one before. None where they are few.
fn last_of_table(
    source: SourceText<'_>,
    state: &State,
    words: usize,
    first: usize,
) -> Option<usize> {
    let name = source.named(first);
    let mut last = first;
    for word in first..words {
        let is_other = word == first || state.cells.get(word) != state.cells.get(last);
        if !is_other
            || source.named(word) != name
            || !matches!(state.cells.get(word), Cell::Known(_))
        {
            break;
        }
        last = word;
    }
    (last.saturating_sub(first) >= TABLE_WORDS).then_some(last)
}

/// Writes that words from one on up to another are a table.
fn write_table<W: Write>(
    source: SourceText<'_>,
    first: usize,
    last: usize,
    writer: &mut W,
) -> Result<(), ShowFault> {
    let names = Names {
        source,
        first,
        last,
    };
    writeln!(
        writer,
        "         words {first} to {last}{names}: numbers that are known, each another than the one before"
    )
    .map_err(|_| ShowFault::Write)
}

/// Writes what is known of the words of a workspace: of tables, and of stretches of words of which the same is known.
fn write_words<W: Write>(
    source: SourceText<'_>,
    state: &State,
    words: usize,
    writer: &mut W,
) -> Result<(), ShowFault> {
    let mut first = 0;
    for _ in 0..words {
        if first >= words {
            return Ok(());
        }
        let last = match last_of_table(source, state, words, first) {
            Some(last) => {
                write_table(source, first, last, writer)?;
                last
            }
            None => {
                let last = last_alike(state, words, first);
                write_stretch(source, first, last, state.cells.get(first), writer)?;
                last
            }
        };
        first = last.saturating_add(1);
    }
    Ok(())
}

/// Writes what is known before an instruction.
fn write_known<W: Write>(
    source: SourceText<'_>,
    state: &State,
    image: &Image,
    nest: &Nest,
    at: usize,
    writer: &mut W,
) -> Result<(), ShowFault> {
    write!(writer, "known    ").map_err(|_| ShowFault::Write)?;
    write_registers(state, writer)?;
    let wptr = state.wptr;
    let phase = KnownPhase(state.phase);
    writeln!(writer, "         Wptr at word {wptr}; {phase}").map_err(|_| ShowFault::Write)?;
    for row in &nest.around(at) {
        writeln!(writer, "         in the loop of row {row}").map_err(|_| ShowFault::Write)?;
    }
    write_words(source, state, image.workspace as usize, writer)
}

/// Whether a word is a live control word.
fn is_live(state: &State, word: i64) -> bool {
    match usize::try_from(word) {
        Ok(word) => matches!(state.cells.get(word), Cell::Index(_) | Cell::Count(_)),
        Err(_) => false,
    }
}

/// Whether one of the five words below Wptr is a live control word.
fn is_live_below(state: &State) -> bool {
    let wptr = i64::from(state.wptr);
    (1..=i64::from(FRAME_WORDS)).any(|below| is_live(state, wptr - below))
}

/// Which of the meanings of S5 an instruction has, on an edge that enters a loop or does not.
fn meaning_of_s5(instr: Instr, state: &State, enters: bool) -> &'static str {
    let writes = "it writes, or may write, a control word of a loop around it";
    match instr {
        Instr::Stl(n) if is_live(state, i64::from(state.wptr) + i64::from(n)) => writes,
        Instr::Jump(_) | Instr::Lend | Instr::Input | Instr::Output if is_live_below(state) => {
            "a control word of a loop around it is among the five words below Wptr, which it leaves undefined"
        }
        Instr::Lend =>
            "Breg is not the address of the loop's control word, or Areg not the distance back to its head",
        _ if enters =>
            "on its edge into a loop the control word is not the row's first index, or the word behind it not its \
             count",
        _ => writes,
    }
}

/// The row of the loop that an edge enters, if it enters one.
fn row_entered(nest: &Nest, refusal: &EdgeRefusal) -> Option<usize> {
    let Placed { at, instr, next } = refusal.instruction;
    let to = nest.target(at, next, instr, refusal.edge)?;
    nest.entered(at, to)
}

/// Writes which meaning of S5 it is, and what a loop asks that is entered.
fn write_loop<W: Write>(
    image: &Image,
    nest: &Nest,
    refusal: &EdgeRefusal,
    state: &State,
    writer: &mut W,
) -> Result<(), ShowFault> {
    let entered = row_entered(nest, refusal);
    let meaning = meaning_of_s5(refusal.instruction.instr, state, entered.is_some());
    writeln!(writer, "why      {meaning}").map_err(|_| ShowFault::Write)?;
    let Some(number) = entered else {
        return Ok(());
    };
    let Some(row) = image.loops.get(number) else {
        return Ok(());
    };
    let LoopRow {
        head,
        control,
        count,
        start,
        ..
    } = *row;
    let behind = control.saturating_add(1);
    writeln!(
        writer,
        "         row {number}, head {head}: word {control} is to be {start}, word {behind} is to be {count}"
    )
    .map_err(|_| ShowFault::Write)
}

/// Writes what an edge brings to an address, if it leads there and there is a state before its instruction.
fn write_arrival<W: Write>(
    alloc: Global,
    image: &Image,
    nest: &Nest,
    table: &[Option<State>],
    place: Placed,
    edge: Edge,
    to: usize,
    writer: &mut W,
) -> Result<(), ShowFault>
    requires good { HasGoodLoops image.now }
    requires nest { nest.now ≡ ranges image.now.loops }
    requires placed { HasPlacedStates image.now (table_of table.now) }
{
    let Placed { at, instr, next } = place;
    if nest.target(at, next, instr, edge) != Some(to) {
        return Ok(());
    }
    let Some(state) = state_at(table, at) else {
        return Ok(());
    };
    match after(alloc, state, at, next, instr, edge, image, nest) {
        Ok(outcome) => {
            let name = name_of(edge);
            write!(writer, "from     {at} by {name}: ").map_err(|_| ShowFault::Write)?;
            write_registers(&outcome, writer)
        }
        Err(StateFault::Memory) => Err(ShowFault::Memory),
        Err(StateFault::Refused { .. }) => Ok(()),
    }
}

/// Writes what each edge brings to an address.
fn write_arrivals<W: Write>(
    alloc: Global,
    image: &Image,
    listing: &Listing,
    nest: &Nest,
    table: &[Option<State>],
    to: usize,
    writer: &mut W,
) -> Result<(), ShowFault>
    requires good { HasGoodLoops image.now }
    requires nest { nest.now ≡ ranges image.now.loops }
    requires placed { HasPlacedStates image.now (table_of table.now) }
{
    for i in 0..listing.len() {
        if let Some(place) = listing.get(i) {
            for edge in asked(place.instr) {
                write_arrival(alloc, image, nest, table, place, *edge, to, writer)?;
            }
        }
    }
    Ok(())
}

/// Writes what is there already, where two edges may not meet.
fn write_meeting<W: Write>(
    table: &[Option<State>],
    refusal: &EdgeRefusal,
    writer: &mut W,
) -> Result<(), ShowFault> {
    let place = refusal.place;
    let at = refusal.instruction.at;
    let Some(there) = state_at(table, place) else {
        return Ok(());
    };
    if place == at {
        return Ok(());
    }
    let wptr = there.wptr;
    let phase = KnownPhase(there.phase);
    let name = name_of(refusal.edge);
    writeln!(
        writer,
        "why      at {place} Wptr is at word {wptr}, {phase}, by another way than from {at} by {name}"
    )
    .map_err(|_| ShowFault::Write)
}

/// A remedy where an operation on numbers is given an address.
const MOVE_BY_INDEX: &str =
    "wsub moves the address of a word, and bsub that of a byte, by an index: add to the index before it";

/// A remedy for a refusal at an instruction, where it is another than for others of its code.
fn remedy_of(refusal: &EdgeRefusal, state: &State) -> Option<&'static str> {
    match refusal.instruction.instr {
        Instr::Adc(_) | Instr::Add | Instr::Sum | Instr::Sub | Instr::Diff
            if refusal.code == StateCode::S2 && has_address(state) => { Some(MOVE_BY_INDEX) }
        _ => None,
    }
}

/// Whether Areg or Breg is an address.
fn has_address(state: &State) -> bool {
    let is_address = |kind| matches!(kind, Kind::Ptr(_, _) | Kind::BytePtr(_, _));
    is_address(state.a) || is_address(state.b)
}

/// Writes where the passes refuse a code, and what is known there. What helps against this one comes back, where it is
/// another thing than against others of its code.
pub(crate) fn write_state<W: Write>(
    alloc: Global,
    image: &Image,
    listing: &Listing,
    nest: &Nest,
    source: SourceText<'_>,
    found: &FirstRefusal,
    writer: &mut W,
) -> Result<Option<&'static str>, ShowFault>
    requires good { HasGoodLoops image.now }
    requires nest { nest.now ≡ ranges image.now.loops }
    requires placed { HasPlacedStates image.now (table_of found.now.table.items) }
{
    let FirstRefusal {
        passes,
        refusal,
        table,
    } = found;
    let at = refusal.instruction.at;
    let source = source.at(at);
    write_around(alloc, image, listing, source, at, writer)?;
    let wanted = asked_by(refusal.instruction.instr);
    let name = name_of(refusal.edge);
    let pass = passes.saturating_add(1);
    writeln!(writer, "asked    {wanted}").map_err(|_| ShowFault::Write)?;
    if let Some(before) = state_at(table, at) {
        write_known(source, before, image, nest, at, writer)?;
        if refusal.code == StateCode::S5 {
            write_loop(image, nest, refusal, before, writer)?;
        }
    }
    let finding = Finding {
        image,
        listing,
        nest,
        source,
        found,
    };
    write_written(alloc, finding, writer)?;
    write_meeting(table, refusal, writer)?;
    write_arrivals(alloc, image, listing, nest, table, at, writer)?;
    writeln!(
        writer,
        "found    in pass {pass}, on the edge {name} of the instruction at {at}"
    )
    .map_err(|_| ShowFault::Write)?;
    Ok(state_at(table, at).and_then(|state| remedy_of(refusal, state)))
}
