//! A program as text.

ghost use Rattle.std.specs.Prelude.{◌≡◌, ◌++◌, ◌||◌, ℕ, ◌<◌, ◌==◌, length, codes, slice_index_or, false, string_bytes};
ghost use Rattle.std.specs.Prelude.{IfOk, OnOk};
ghost use Rattle.std.specs.Fmt.{signed_decimal};
ghost use Rattle.std.specs.List.{flat_map, list_any};
ghost use Rattle.std.specs.Option.{option_copied};
ghost use Rattle.tpw_text.specs.Programs.{program_said};
ghost use Rattle.tpw_text.specs.Written.{spot_text, loop_text, stated_text, operation_text, line_text, is_at};
ghost use Rattle.tpw_text.specs.Written.{names_from_row, names_from_operation, names_from_line, is_named, IsMarked};
ghost use Rattle.tpw_text.specs.Written.{AreMarks, label_there, version_text, initial_text, fields_text, lines_text};
ghost use Rattle.tpw_text.specs.Written.{text_of};

use crate::remarks::{Remarks, end_line, put_above};
use std::alloc::{AllocError, Global};
use tp_decode::Instr;
use tp_image::Version;
use tpw_asm::{Line, Loop, Operation, Program, Spot};

/// Appends a spot.
#[tactic(auto, unfolding(crate::specs::Written::spot_text))]
fn put_spot(text: &mut String, spot: Spot) -> Result<(), AllocError>
    ensures { OnOk result (string_bytes text.new ≡ string_bytes text.old ++ spot_text spot) }
{
    match spot {
        Spot::Place(place) => write!(text, "L{place}"),
        Spot::Address(address) => write!(text, "{address}"),
    }
}

/// Appends a signed number.
fn put_signed(text: &mut String, number: i32) -> Result<(), AllocError>
    ensures { OnOk result (string_bytes text.new ≡ string_bytes text.old ++ signed_decimal number) }
{
    write!(text, "{number}")
}

/// Appends a row.
#[tactic(auto, unfolding(crate::specs::Written::loop_text))]
fn put_loop(text: &mut String, row: &Loop) -> Result<(), AllocError>
    ensures { OnOk result (string_bytes text.new ≡ string_bytes text.old ++ loop_text row.now) }
{
    text.push_str("loop head ")?;
    put_spot(text, row.head)?;
    text.push_str(" lend ")?;
    put_spot(text, row.lend)?;
    let control = row.control;
    let count = row.count;
    write!(text, " control {control} turns {count} start ")?;
    put_signed(text, row.start)?;
    text.push_str("\n")
}

/// Marks a place.
fn mark(marks: &mut [bool], place: usize)
    ensures { IsMarked (λ k. place == k) marks.old marks.new }
{
    if place < marks.len() {
        marks[place] = true;
    }
}

/// Marks a place that a loop names.
fn mark_spot(marks: &mut [bool], spot: Spot)
    ensures { IsMarked (λ k. is_at k spot) marks.old marks.new }
{
    if let Spot::Place(place) = spot {
        mark(marks, place);
    }
}

/// Marks the places that a row names.
fn mark_row(marks: &mut [bool], row: &Loop)
    ensures { IsMarked (λ k. names_from_row k row.now) marks.old marks.new }
{
    mark_spot(marks, row.head);
    mark_spot(marks, row.lend);
}

/// Marks the places that rows name.
fn mark_rows(marks: &mut [bool], rows: &[Loop])
    ensures { IsMarked (λ k. list_any (names_from_row k) rows.now) marks.old marks.new }
{
    for row in rows {
        mark_row(marks, row);
    }
}

/// Marks the places that an operation names.
fn mark_operation(marks: &mut [bool], operation: Operation)
    ensures { IsMarked (λ k. names_from_operation k operation) marks.old marks.new }
{
    match operation {
        Operation::Plain(_) => {}
        Operation::JumpTo(target) => mark(marks, target),
        Operation::CjTo(target) => mark(marks, target),
        Operation::Distance { from, to } => {
            mark(marks, from);
            mark(marks, to);
        }
    }
}

/// Marks the places that a line names.
fn mark_line(marks: &mut [bool], line: Line)
    ensures { IsMarked (λ k. names_from_line k line) marks.old marks.new }
{
    match line {
        Line::Byte(_) => {}
        Line::Spelled { operation, .. } => mark_operation(marks, operation),
    }
}

/// Marks the places that lines name.
fn mark_lines(marks: &mut [bool], lines: &[Line])
    ensures { IsMarked (λ k. list_any (names_from_line k) lines.now) marks.old marks.new }
{
    for line in lines {
        mark_line(marks, *line);
    }
}

/// Marks the places that a program names.
#[tactic(auto, unfolding(crate::specs::Written::is_named))]
fn mark_program(marks: &mut [bool], program: &Program)
    ensures { IsMarked (is_named (program_said program.now)) marks.old marks.new }
{
    mark_rows(marks, &program.loops);
    mark_lines(marks, &program.lines);
}

/// For each place, whether it needs a label.
fn marks_of(alloc: Global, program: &Program) -> Result<Vec<bool>, AllocError>
    ensures { IfOk result (λ marks.
        AreMarks (is_named (program_said program.now)) marks.items (length program.now.lines.items)) }
{
    let mut marks = Vec::new(alloc);
    marks.resize(program.lines.len() + 1, false)?;
    mark_program(&mut marks, program);
    Ok(marks)
}

/// Appends the length that is stated.
#[tactic(auto, unfolding(crate::specs::Written::stated_text))]
fn put_stated(text: &mut String, bytes: Option<u8>) -> Result<(), AllocError>
    ensures { OnOk result (string_bytes text.new ≡ string_bytes text.old ++ stated_text bytes) }
{
    match bytes {
        Some(bytes) => write!(text, "/{bytes}"),
        None => Ok(()),
    }
}

/// Appends an instruction, with the length that is stated behind its name.
fn put_instr(
    alloc: Global,
    text: &mut String,
    instr: Instr,
    bytes: Option<u8>,
) -> Result<(), AllocError>
    ensures { OnOk result (string_bytes text.new
        ≡ string_bytes text.old ++ operation_text bytes (Operation.Plain instr)) }
{
    let shown = format!(in alloc; "{instr}")?;
    match shown.as_str().split_once(' ') {
        Some((name, operand)) => {
            text.push_str(name)?;
            put_stated(text, bytes)?;
            text.push_str(" ")?;
            text.push_str(operand)
        }
        None => {
            text.push_str(shown.as_str())?;
            put_stated(text, bytes)
        }
    }
}

/// Appends an operation.
#[tactic(auto, unfolding(crate::specs::Written::operation_text))]
fn put_operation(
    alloc: Global,
    text: &mut String,
    operation: Operation,
    bytes: Option<u8>,
) -> Result<(), AllocError>
    ensures { OnOk result (string_bytes text.new ≡ string_bytes text.old ++ operation_text bytes operation) }
{
    match operation {
        Operation::Plain(instr) => put_instr(alloc, text, instr, bytes),
        Operation::JumpTo(target) => {
            text.push_str("j")?;
            put_stated(text, bytes)?;
            write!(text, " L{target}")
        }
        Operation::CjTo(target) => {
            text.push_str("cj")?;
            put_stated(text, bytes)?;
            write!(text, " L{target}")
        }
        Operation::Distance { from, to } => {
            text.push_str("ldc")?;
            put_stated(text, bytes)?;
            write!(text, " L{to} - L{from}")
        }
    }
}

/// Appends a label where one is marked.
#[tactic(auto, unfolding(crate::specs::Written::label_there))]
fn put_label(text: &mut String, marks: &[bool], place: usize) -> Result<(), AllocError>
    ensures { OnOk result (string_bytes text.new
        ≡ string_bytes text.old ++ label_there (slice_index_or marks.now place false) place) }
{
    if marks.get(place) == Some(&true) {
        writeln!(text, "L{place}:")?;
    }
    Ok(())
}

/// Appends the version, where it is not the first.
#[tactic(auto, unfolding(crate::specs::Written::version_text))]
fn put_version(text: &mut String, version: Version) -> Result<(), AllocError>
    ensures { OnOk result (string_bytes text.new ≡ string_bytes text.old ++ version_text version) }
{
    match version {
        Version::One => Ok(()),
        Version::Two => text.push_str("version 2\n"),
    }
}

/// Appends initial words.
fn put_initial(text: &mut String, words: &[u32]) -> Result<(), AllocError>
    ensures { OnOk result (string_bytes text.new ≡ string_bytes text.old ++ initial_text 0 words.now) }
{
    for (i, word) in words.iter().enumerate() {
        let word = *word;
        writeln!(text, "init {i}: #{word:x}")?;
    }
    Ok(())
}

/// Appends rows.
fn put_loops(text: &mut String, rows: &[Loop]) -> Result<(), AllocError>
    ensures { OnOk result (string_bytes text.new ≡ string_bytes text.old ++ flat_map loop_text rows.now) }
{
    for row in rows {
        put_loop(text, row)?;
    }
    Ok(())
}

/// Appends what a program says beside its lines.
#[tactic(auto, unfolding(crate::specs::Written::fields_text))]
fn put_fields(text: &mut String, program: &Program) -> Result<(), AllocError>
    ensures { OnOk result (string_bytes text.new ≡ string_bytes text.old ++ fields_text (program_said program.now)) }
{
    put_version(text, program.version)?;
    let workspace = program.workspace;
    let start = program.start;
    let packet = program.packet;
    let results = program.result;
    writeln!(
        text,
        "workspace {workspace}\nstart {start}\npacket {packet}\nresult {results}"
    )?;
    put_initial(text, &program.initial)?;
    put_loops(text, &program.loops)
}

/// Appends a line, without its end.
#[tactic(auto, unfolding(crate::specs::Written::line_text))]
fn put_line(alloc: Global, text: &mut String, line: &Line) -> Result<(), AllocError>
    ensures { OnOk result (string_bytes text.new ≡ string_bytes text.old ++ line_text line.now) }
{
    match line {
        Line::Byte(byte) => {
            let byte = *byte;
            write!(text, "        byte #{byte:02x}")
        }
        Line::Spelled { operation, bytes } => {
            text.push_str("        ")?;
            put_operation(alloc, text, *operation, *bytes)
        }
    }
}

/// Appends lines, with a label at each marked place and with their remarks.
fn put_lines(
    alloc: Global,
    text: &mut String,
    marks: &[bool],
    lines: &[Line],
    remarks: Option<&Remarks<'_>>,
) -> Result<(), AllocError>
    ensures { OnOk result (string_bytes text.new ≡ string_bytes text.old
        ++ lines_text (λ k. slice_index_or marks.now k false) (option_copied remarks.entry) 0 lines.now) }
{
    for (place, line) in lines.iter().enumerate() {
        put_label(text, marks, place)?;
        put_line(alloc, text, line)?;
        end_line(text, remarks, place)?;
    }
    put_label(text, marks, lines.len())
}

/// A program as a text that is read as the same program. Its labels are `L` and a place's number. Remarks are in
/// comments.
#[tactic(auto, unfolding(crate::specs::Written::text_of))]
pub fn source_text(
    alloc: Global,
    program: &Program,
    remarks: Option<&Remarks<'_>>,
) -> Result<String, AllocError>
    ensures { IfOk result (λ text.
        string_bytes text ≡ text_of (program_said program.now) (option_copied remarks.entry)) }
{
    let marks = marks_of(alloc, program)?;
    let mut text = String::new(alloc);
    put_above(&mut text, remarks)?;
    put_fields(&mut text, program)?;
    put_lines(alloc, &mut text, &marks, &program.lines, remarks)?;
    Ok(text)
}
