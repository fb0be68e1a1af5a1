//! Fields of an image that a text says out of range: by the statement that says them.

ghost use Rattle.std.specs.Prelude.{◌≡◌, ◌⊎◌, IfOk, IfErr};
ghost use Rattle.tpw_files.specs.declared.failure.Failure.TheVariants as failure;
ghost use Rattle.tpw_asm.specs.Assembly.{AreItsAddresses};
ghost use Rattle.tpw_assembly.specs.Programs.{AreImageOf, IsAtStatement, IsRefusalIn};

use crate::assembly::{Encoded, assembled};
use std::alloc::Global;
use tp_image::{ImageCode, Version};
use tpw_asm::{AssemblyFault, Program};
use tpw_files::{Failure, InputFault};
use tpw_text::{Position, Source, statement_of};

/// The statement that says a field, and the range of the field in an image of a version.
fn asked_of(code: ImageCode, version: Version) -> Option<(&'static str, &'static str)> {
    match (code, version) {
        (ImageCode::F4, Version::One) => Some((
            "workspace",
            "workspace: 8 to 256 words; version 2 has 512 words",
        )),
        (ImageCode::F4, Version::Two) => Some(("workspace", "workspace: 8 to 512 words")),
        (ImageCode::F5, _) => Some(("start", "start: a word of the workspace, 5 or more")),
        (ImageCode::F6, _) => Some(("packet", "packet: 1 to 64 words")),
        (ImageCode::F7, _) => Some(("result", "result: 1 to 64 words")),
        (ImageCode::F10, Version::One) => Some(("init", "init: version 2 alone has initial words")),
        (ImageCode::F10, Version::Two) => Some((
            "init",
            "init: no more words than the workspace has",
        )),
        _ => None,
    }
}

/// The place of a text's last statement that begins with a word.
fn position_of(alloc: Global, text: &str, word: &str) -> Result<Option<Position>, Failure>
    ensures { IfErr result (λ e. e ≡ failure.Memory) }
{
    let mut found = None;
    for (i, line) in text.lines().enumerate() {
        let statement = statement_of(alloc, line)?;
        let first = match statement.split_once(|c: char| c.is_ascii_whitespace()) {
            Some((first, _)) => first,
            None => statement,
        };
        if first.eq_ignore_ascii_case(word) {
            found = Some(Position {
                line: i.saturating_add(1),
                column: line.find(statement).unwrap_or(0).saturating_add(1),
            });
        }
    }
    Ok(found)
}

/// The message for a text without code.
const NO_CODE: &str = "the text has no instruction";

/// The same failure, of a field that is out of range at the statement that says it.
fn at_statement(
    alloc: Global,
    text: &str,
    program: &Program,
    whole: Failure,
) -> Result<Failure, Failure>
    ensures reported { IfOk result (λ e. (e ≡ whole) ⊎ IsAtStatement whole e) }
    ensures memory { IfErr result (λ e. e ≡ failure.Memory) }
{
    let Failure::Input(InputFault::Assembly(AssemblyFault::Field(code))) = whole else {
        return Ok(whole);
    };
    if code == ImageCode::F3 && program.lines.is_empty() {
        let first = Position { line: 1, column: 1 };
        return Ok(Failure::Input(InputFault::Field(first, NO_CODE)));
    }
    let Some((word, range)) = asked_of(code, program.version) else {
        return Ok(whole);
    };
    match position_of(alloc, text, word)? {
        Some(position) => Ok(Failure::Input(InputFault::Field(position, range))),
        None => Ok(whole),
    }
}

/// The bytes of the image of a program that a text says. A field that is out of range is reported at the statement that
/// says it.
pub fn assembled_text(alloc: Global, text: &str, source: &Source<'_>) -> Result<Encoded, Failure>
    ensures image { IfOk result (λ made. AreImageOf source.now.program made.bytes.items) }
    ensures addresses { IfOk result (λ made. AreItsAddresses source.now.program made.addresses.items) }
    ensures refused { IfErr result (IsRefusalIn source.now) }
{
    match assembled(alloc, source) {
        Ok(made) => Ok(made),
        Err(failure) => Err(at_statement(alloc, text, &source.program, failure)?),
    }
}
