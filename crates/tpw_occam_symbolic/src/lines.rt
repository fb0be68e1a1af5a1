//! From steps to the lines of a program, once items are placed.

ghost use Rattle.std.specs.Prelude.{◌≡◌, ◌+◌, ◌<◌, ◌≤◌, ◌^◌, pos, true, map, All, IfOk, OnOk};
ghost use Rattle.tpw_occam_symbolic.specs.declared.code.Step.TheVariants.{Pointer};
ghost use Rattle.tpw_occam_symbolic.specs.MatchStates.{operation_of};
ghost use Rattle.tpw_occam_symbolic.specs.Placing.{words_at, local_at, places, line_at, HasOperand, IsServed, IsPlaced};
ghost use Rattle.tpw_occam_symbolic.specs.Placing.{loop_at, AreTurns, IsRow};

use crate::code::{CodeLine, Step, Turns};
use crate::fault::CodeFault;
use crate::items::{Item, Placed, START};
use crate::layout::place_of;
use crate::uses::{array_words, zeros};
use std::alloc::{AllocError, Global};
use tp_decode::Instr;
use tpw_asm::{Line, Loop, Operation, Spot};
use tpw_occam_core::Worker;

/// No local word goes beyond this one.
const MAX_LOCAL: u32 = 0x4000_0000;

/// The most turns of a loop.
const MAX_TURNS: u32 = 10_000;

/// The local word of an item's word. The item is placed and has this many words, as `words_of` of `uses` has it.
fn local_word(placed: &[Placed], item: Item, words: u32, word: u32) -> Result<i32, CodeFault>
    ensures word { IfOk result (λ local. local ≡ pos (local_at placed.now item + word)) }
    ensures small { OnOk result (local_at placed.now item + word < 2 ^ 31) }
    ensures room { OnOk result (words ≤ words_at placed.now item) }
{
    let Some(place) = place_of(placed, item) else {
        return Err(CodeFault::Misplaced);
    };
    if place.words < words || place.local >= MAX_LOCAL || word >= MAX_LOCAL {
        return Err(CodeFault::Misplaced);
    }
    Ok((place.local + word) as i32)
}

/// The local word of a word that is loaded or stored.
fn used_word(placed: &[Placed], item: Item, word: u32) -> Result<i32, CodeFault>
    ensures word { IfOk result (λ local. local ≡ pos (local_at placed.now item + word)) }
    ensures small { OnOk result (local_at placed.now item + word < 2 ^ 31) }
    ensures room { OnOk result (word < words_at placed.now item) }
{
    local_word(placed, item, word.saturating_add(1), word)
}

/// The local word of a word that is pointed at. What begins there is long enough: an array has its bytes, and zeros are
/// as many as are copied.
fn pointed_word(worker: &Worker, placed: &[Placed], item: Item, word: u32) -> Result<i32, CodeFault>
    ensures word { IfOk result (λ local. local ≡ pos (local_at placed.now item + word)) }
    ensures small { OnOk result (local_at placed.now item + word < 2 ^ 31) }
    ensures room { OnOk result (IsServed worker.now placed.now (Pointer item word)) }
{
    match item {
        Item::Array(a) => local_word(placed, item, array_words(worker, a), word),
        Item::Zeros => local_word(placed, item, zeros(worker), word),
        _ => used_word(placed, item, word),
    }
}

/// The operation of a step.
fn operation_of(worker: &Worker, placed: &[Placed], step: Step) -> Result<Operation, CodeFault>
    ensures operation { IfOk result (λ operation. operation ≡ operation_of (places placed.now) step) }
    ensures operand { OnOk result (HasOperand (places placed.now) step) }
    ensures served { OnOk result (IsServed worker.now placed.now step) }
{
    match step {
        Step::Plain(instr) => Ok(Operation::Plain(instr)),
        Step::Load(item, word) => {
            let local = used_word(placed, item, word)?;
            Ok(Operation::Plain(Instr::Ldl(local)))
        }
        Step::Store(item, word) => {
            let local = used_word(placed, item, word)?;
            Ok(Operation::Plain(Instr::Stl(local)))
        }
        Step::Pointer(item, word) => {
            let local = pointed_word(worker, placed, item, word)?;
            Ok(Operation::Plain(Instr::Ldlp(local)))
        }
        Step::JumpTo(to) => Ok(Operation::JumpTo(to)),
        Step::CjTo(to) => Ok(Operation::CjTo(to)),
        Step::Distance { from, to } => Ok(Operation::Distance { from, to }),
    }
}

/// The lines of code.
pub(crate) fn lines_of(
    alloc: Global,
    worker: &Worker,
    placed: &[Placed],
    code: &[CodeLine],
) -> Result<Vec<Line>, CodeFault>
    ensures lines { IfOk result (λ lines. lines.items ≡ map (line_at (places placed.now)) code.now) }
    ensures placed { OnOk result (All (IsPlaced worker.now placed.now) code.now) }
{
    let mut lines = Vec::with_capacity(alloc, code.len())?;
    for line in code {
        let operation = operation_of(worker, placed, line.step)?;
        lines.push(Line::Spelled {
            operation,
            bytes: None,
        })?;
    }
    Ok(lines)
}

/// The lines of the text that code comes from.
pub(crate) fn sources_of(alloc: Global, code: &[CodeLine]) -> Result<Vec<u32>, AllocError> {
    code.iter().map(|line| line.source).collect(alloc)
}

/// The lines of the text that loops come from.
pub(crate) fn loop_lines(alloc: Global, loops: &[Turns]) -> Result<Vec<u32>, AllocError> {
    loops.iter().map(|turns| turns.source).collect(alloc)
}

/// Whether turns are some, and not more than a loop may have, and the last index is a word.
fn are_turns(turns: Turns) -> bool
    ensures { result ≡ true → AreTurns turns }
{
    let last = i64::from(turns.start.cast_signed()) + i64::from(turns.count) - 1;
    turns.count >= 1 && turns.count <= MAX_TURNS && last <= i64::from(i32::MAX)
}

/// The row of a loop. Its control word is a workspace word, and so is the next.
fn row_of(placed: &[Placed], turns: Turns) -> Result<Loop, CodeFault>
    ensures row { IfOk result (λ row. row ≡ loop_at (places placed.now) 5 turns) }
    ensures good { OnOk result (IsRow placed.now turns) }
{
    let Some(place) = place_of(placed, Item::Variable(turns.index)) else {
        return Err(CodeFault::Misplaced);
    };
    if place.words < 2 || place.local >= MAX_LOCAL || !are_turns(turns) {
        return Err(CodeFault::Misplaced);
    }
    let Ok(control) = u16::try_from(START + place.local) else {
        return Err(CodeFault::Misplaced);
    };
    let Ok(count) = u16::try_from(turns.count) else {
        return Err(CodeFault::Misplaced);
    };
    Ok(Loop {
        head: Spot::Place(turns.head),
        lend: Spot::Place(turns.lend),
        control,
        count,
        start: turns.start.cast_signed(),
    })
}

/// The rows of loops.
pub(crate) fn rows_of(
    alloc: Global,
    placed: &[Placed],
    loops: &[Turns],
) -> Result<Vec<Loop>, CodeFault>
    ensures rows { IfOk result (λ rows. rows.items ≡ map (loop_at (places placed.now) 5) loops.now) }
    ensures good { OnOk result (All (IsRow placed.now) loops.now) }
{
    let mut rows = Vec::with_capacity(alloc, loops.len())?;
    for turns in loops {
        let row = row_of(placed, *turns)?;
        rows.push(row)?;
    }
    Ok(rows)
}
