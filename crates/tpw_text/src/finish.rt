//! A draft as a program: each label by its place.

ghost use Rattle.std.specs.Prelude.{◌≡◌, Ok, IfOk, IfErr, OnOk, map, ◌++◌};
ghost use Rattle.tpw_text.specs.Faults.{IsRefusal, each_read};
ghost use Rattle.tpw_text.specs.Drafts.{said};
ghost use Rattle.tpw_text.specs.Programs.{place_of_label, line_placed, spot_placed, loop_placed, program_said};
ghost use Rattle.tpw_text.specs.Programs.{program_of, label_of, label_listed, labels_listed, source_said, finished};

use crate::draft::{Draft, DraftLine, LabelName, Row, Target, place_named};
use crate::fault::{SourceFault, TextFault};
use crate::words::{Position, Word};
use std::alloc::{AllocError, Global};
use tpw_asm::{Line, Loop, Operation, Program, Spot};

/// A label of a text, and its place.
#[derive(Clone, Copy, Debug, PartialEq, Eq)]
pub struct Label<'a> {
    pub name: &'a str,
    pub place: usize,
}

/// A program, the place of the word that asks for each of its lines, and the labels of the text.
#[derive(Drop)]
pub struct Source<'a> {
    pub program: Program,
    pub positions: Vec<Position>,
    pub labels: Vec<Label<'a>>,
}

/// The place of a label.
#[tactic(auto, unfolding(crate::specs::Programs::place_of_label))]
fn place_of(labels: &[LabelName<'_>], word: &Word<'_>) -> Result<usize, SourceFault>
    ensures { result ≡ place_of_label labels.now word.now }
{
    place_named(labels, word).ok_or(word.fault(TextFault::NoLabel))
}

/// A line with each label by its place.
#[tactic(auto, unfolding(crate::specs::Programs::line_placed))]
fn line_of(labels: &[LabelName<'_>], line: &DraftLine<'_>) -> Result<Line, SourceFault>
    ensures { result ≡ line_placed labels.now line.now }
{
    let (operation, bytes) = match line {
        DraftLine::Known(line) => return Ok(*line),
        DraftLine::Jump(label, bytes) => (Operation::JumpTo(place_of(labels, label)?), *bytes),
        DraftLine::Cj(label, bytes) => (Operation::CjTo(place_of(labels, label)?), *bytes),
        DraftLine::Distance(to, from, bytes) => {
            let operation = Operation::Distance {
                from: place_of(labels, from)?,
                to: place_of(labels, to)?,
            };
            (operation, *bytes)
        }
    };
    Ok(Line::Spelled { operation, bytes })
}

/// A place or an address where a loop begins or ends.
#[tactic(auto, unfolding(crate::specs::Programs::spot_placed))]
fn spot_of(labels: &[LabelName<'_>], target: &Target<'_>) -> Result<Spot, SourceFault>
    ensures { result ≡ spot_placed labels.now target.now }
{
    Ok(match target {
        Target::Label(label) => Spot::Place(place_of(labels, label)?),
        Target::Address(address) => Spot::Address(*address),
    })
}

/// A row with each label by its place.
#[tactic(auto, unfolding(crate::specs::Programs::loop_placed))]
fn loop_of(labels: &[LabelName<'_>], row: &Row<'_>) -> Result<Loop, SourceFault>
    ensures { result ≡ loop_placed labels.now row.now }
{
    let head = spot_of(labels, &row.head)?;
    let lend = spot_of(labels, &row.lend)?;
    Ok(Loop {
        head,
        lend,
        control: row.control,
        count: row.count,
        start: row.start,
    })
}

/// The lines with each label by its place.
fn lines_of(
    alloc: Global,
    labels: &[LabelName<'_>],
    lines: &[DraftLine<'_>],
) -> Result<Vec<Line>, SourceFault>
    ensures said { IfOk result (λ said. each_read (line_placed labels.now) lines.now ≡ Ok said.items) }
    ensures refused { IfErr result (IsRefusal (each_read (line_placed labels.now) lines.now)) }
{
    let mut placed = Vec::new(alloc);
    for line in lines {
        placed.push(line_of(labels, line)?)?;
    }
    Ok(placed)
}

/// The rows with each label by its place.
fn loops_of(
    alloc: Global,
    labels: &[LabelName<'_>],
    rows: &[Row<'_>],
) -> Result<Vec<Loop>, SourceFault>
    ensures said { IfOk result (λ said. each_read (loop_placed labels.now) rows.now ≡ Ok said.items) }
    ensures refused { IfErr result (IsRefusal (each_read (loop_placed labels.now) rows.now)) }
{
    let mut loops = Vec::new(alloc);
    for row in rows {
        loops.push(loop_of(labels, row)?)?;
    }
    Ok(loops)
}

/// Appends a label, if its name is UTF-8.
#[tactic(auto, unfolding(crate::specs::Programs::label_listed))]
fn push_label<'a>(labels: &mut Vec<Label<'a>>, name: &LabelName<'a>) -> Result<(), AllocError>
    ensures { OnOk result (map label_of labels.new.items ≡ map label_of labels.old.items ++ label_listed name.now) }
{
    if let Ok(text) = str::from_utf8(name.word.text) {
        labels.push(Label {
            name: text,
            place: name.place,
        })?;
    }
    Ok(())
}

/// The labels of a text.
fn labels_of<'a>(alloc: Global, names: &[LabelName<'a>]) -> Result<Vec<Label<'a>>, AllocError>
    ensures { IfOk result (λ labels. map label_of labels.items ≡ labels_listed names.now) }
{
    let mut labels = Vec::new(alloc);
    for name in names {
        push_label(&mut labels, name)?;
    }
    Ok(labels)
}

/// The program of a draft.
#[tactic(auto, unfolding(crate::specs::Programs::program_of))]
fn program_of(alloc: Global, draft: &Draft<'_>) -> Result<Program, SourceFault>
    ensures said { IfOk result (λ program. program_of (said draft.now) ≡ Ok (program_said program)) }
    ensures refused { IfErr result (IsRefusal (program_of (said draft.now))) }
{
    let lines = lines_of(alloc, &draft.labels, &draft.lines)?;
    let loops = loops_of(alloc, &draft.labels, &draft.rows)?;
    Ok(Program {
        version: draft.version,
        workspace: u32::from(draft.workspace),
        start: u32::from(draft.start),
        packet: u32::from(draft.packet),
        result: u32::from(draft.results),
        loops,
        initial: Vec::from_slice(alloc, &draft.initial)?,
        lines,
    })
}

/// The program of a draft, and its labels.
#[tactic(auto, unfolding(crate::specs::Programs::finished))]
pub fn finish<'a>(alloc: Global, draft: Draft<'a>) -> Result<Source<'a>, SourceFault>
    ensures said { IfOk result (λ source. finished (said draft.entry) ≡ Ok (source_said source)) }
    ensures refused { IfErr result (IsRefusal (finished (said draft.entry))) }
{
    let program = program_of(alloc, &draft)?;
    Ok(Source {
        program,
        positions: Vec::from_slice(alloc, &draft.positions)?,
        labels: labels_of(alloc, &draft.labels)?,
    })
}
