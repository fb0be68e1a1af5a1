//! The grammar of instructions.

ghost use Rattle.std.specs.Prelude.{◌≡◌, ◌≤◌, IfOk, slice_get};
ghost use Rattle.tpw_text.specs.Grammar.{length_said, plain_line, number_line, is_word_here, label_line};
ghost use Rattle.tpw_text.specs.Grammar.{distance_said, number_said, operand_said, with_operand_said};
ghost use Rattle.tpw_text.specs.Grammar.{operation_said, instruction_said};

use crate::draft::DraftLine;
use crate::fault::{SourceFault, TextFault};
use crate::mnemonics::{function_of, operation_of};
use crate::number::{count_of, is_number, number_of};
use crate::statement::NewLine;
use crate::wanted::{expect_end, word_at};
use crate::words::Word;
use tp_decode::Instr;
use tpw_asm::{Line, Operation};

/// The most bytes of a spelling.
const MAX_BYTES: u32 = 8;

/// How many bytes are stated behind a `/`, and which word is the operand.
#[tactic(auto, unfolding(crate::specs::Grammar::length_said))]
fn length_of(words: &[Word<'_>]) -> Result<(Option<u8>, usize), SourceFault>
    ensures said { result ≡ length_said words.now }
    ensures operand { IfOk result (λ s. s.1 ≤ 3) }
{
    match words.get(1) {
        Some(mark) if mark.is("/") => {
            let word = word_at(words, 2, mark)?;
            let bytes = count_of(&word, MAX_BYTES)?;
            if bytes == 0 {
                return Err(word.fault(TextFault::NoLength));
            }
            Ok((Some(bytes as u8), 3))
        }
        _ => Ok((None, 1)),
    }
}

/// A line with an instruction.
fn plain_line<'a>(word: &Word<'a>, bytes: Option<u8>, instr: Instr) -> NewLine<'a>
    ensures { result ≡ plain_line word.now bytes instr }
{
    let operation = Operation::Plain(instr);
    NewLine {
        word: *word,
        line: DraftLine::Known(Line::Spelled { operation, bytes }),
    }
}

/// A line with the instruction of a function and its operand.
fn number_line<'a>(
    word: &Word<'a>,
    bytes: Option<u8>,
    function: u8,
    operand: i32,
) -> Result<NewLine<'a>, SourceFault>
    ensures { result ≡ number_line word.now bytes function operand }
{
    match Instr::of(function, operand) {
        Some(instr) => Ok(plain_line(word, bytes, instr)),
        None => Err(word.fault(TextFault::Unknown)),
    }
}

/// A line with a label, and nothing behind it.
fn label_line<'a>(
    words: &[Word<'a>],
    first: &Word<'a>,
    i: usize,
    line: DraftLine<'a>,
) -> Result<NewLine<'a>, SourceFault>
    ensures { result ≡ label_line words.now first.now i line.entry }
{
    expect_end(words, i)?;
    let word = *first;
    Ok(NewLine { word, line })
}

/// `ldc LABEL - LABEL`, behind the mark.
#[tactic(auto, unfolding(crate::specs::Grammar::distance_said))]
fn distance<'a>(
    words: &[Word<'a>],
    first: &Word<'a>,
    bytes: Option<u8>,
    i: usize,
    to: &Word<'a>,
) -> Result<NewLine<'a>, SourceFault>
    requires { i ≤ 4 }
    ensures { result ≡ distance_said words.now first.now bytes i to.now }
{
    let from = word_at(words, i + 1, to)?;
    label_line(words, first, i + 2, DraftLine::Distance(*to, from, bytes))
}

/// An instruction of a function with a number as its operand.
#[tactic(auto, unfolding(crate::specs::Grammar::number_said))]
fn with_number<'a>(
    words: &[Word<'a>],
    first: &Word<'a>,
    function: u8,
    bytes: Option<u8>,
    i: usize,
    word: &Word<'a>,
) -> Result<NewLine<'a>, SourceFault>
    ensures { result ≡ number_said words.now first.now function bytes i word.now }
{
    expect_end(words, i)?;
    let operand = number_of(word)?;
    number_line(first, bytes, function, operand)
}

/// Whether a word is here, and is this one.
fn is_here(words: &[Word<'_>], i: usize, name: &str) -> bool
    ensures { result ≡ is_word_here (slice_get words.now i) name.now }
{
    words.get(i).is_some_and(|word| word.is(name))
}

/// An instruction of a function, whose operand begins with a word. What is behind that word begins at a place.
#[tactic(auto, unfolding(crate::specs::Grammar::operand_said))]
fn with_word<'a>(
    words: &[Word<'a>],
    first: &Word<'a>,
    function: u8,
    bytes: Option<u8>,
    i: usize,
    word: &Word<'a>,
) -> Result<NewLine<'a>, SourceFault>
    requires { i ≤ 4 }
    ensures { result ≡ operand_said words.now first.now function bytes i word.now }
{
    let number = is_number(word);
    if !number && first.is("j") {
        label_line(words, first, i, DraftLine::Jump(*word, bytes))
    } else if !number && first.is("cj") {
        label_line(words, first, i, DraftLine::Cj(*word, bytes))
    } else if first.is("ldc") && is_here(words, i, "-") {
        distance(words, first, bytes, i, word)
    } else {
        with_number(words, first, function, bytes, i, word)
    }
}

/// An instruction of a function with an operand.
#[tactic(auto, unfolding(crate::specs::Grammar::with_operand_said))]
fn with_operand<'a>(
    words: &[Word<'a>],
    first: &Word<'a>,
    function: u8,
) -> Result<NewLine<'a>, SourceFault>
    ensures { result ≡ with_operand_said words.now first.now function }
{
    let (bytes, i) = length_of(words)?;
    let word = word_at(words, i, first)?;
    with_word(words, first, function, bytes, i + 1, &word)
}

/// An operation.
#[tactic(auto, unfolding(crate::specs::Grammar::operation_said))]
fn operation<'a>(
    words: &[Word<'a>],
    first: &Word<'a>,
    instr: Instr,
) -> Result<NewLine<'a>, SourceFault>
    ensures { result ≡ operation_said words.now first.now instr }
{
    let (bytes, i) = length_of(words)?;
    expect_end(words, i)?;
    Ok(plain_line(first, bytes, instr))
}

/// An instruction.
#[tactic(auto, unfolding(crate::specs::Grammar::instruction_said))]
pub fn instruction_of<'a>(words: &[Word<'a>], first: &Word<'a>) -> Result<NewLine<'a>, SourceFault>
    ensures { result ≡ instruction_said words.now first.now }
{
    if let Some(function) = function_of(first) {
        return with_operand(words, first, function);
    }
    if let Some(instr) = operation_of(first) {
        return operation(words, first, instr);
    }
    Err(first.fault(TextFault::Unknown))
}
