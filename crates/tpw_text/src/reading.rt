//! Reading a text.

ghost use Rattle.std.specs.Prelude.{◌≡◌, OnOk, IfOk, IfErr, Ok};
ghost use Rattle.tpw_text.specs.Faults.{IsRefusal};
ghost use Rattle.tpw_text.specs.Drafts.{said};
ghost use Rattle.tpw_text.specs.Apart.{draft_apart};
ghost use Rattle.tpw_text.specs.Programs.{source_said};
ghost use Rattle.tpw_text.specs.Texts.{text_said, source_of};
ghost use Rattle.tpw_text.specs.Meaning.{line_said};

use crate::draft::Draft;
use crate::fault::SourceFault;
use crate::finish::{Source, finish};
use crate::statements::read_statement;
use crate::wanted::name_of;
use crate::words::{Word, words_of};
use std::alloc::Global;

/// A line: a label with a colon or none, and a statement or none. What the statement says is read before it is added.
#[tactic(auto, unfolding(crate::specs::Meaning::line_said))]
fn read_line<'a>(draft: &mut Draft<'a>, words: &[Word<'a>]) -> Result<(), SourceFault>
    ensures said { OnOk result (line_said words.now (said draft.old) ≡ Ok (said draft.new)) }
    ensures refused { IfErr result (IsRefusal (line_said words.now (said draft.old))) }
{
    match words {
        [word, mark, rest @ ..] if mark.is(":") => {
            let label = name_of(word)?;
            let statement = read_statement(rest)?;
            draft.set_label(&label)?;
            draft.add(statement)
        }
        _ => draft.add(read_statement(words)?),
    }
}

/// The draft of a text, line by line, or its first fault.
fn draft_of<'a>(alloc: Global, text: &'a str) -> Result<Draft<'a>, SourceFault>
    ensures said { IfOk result (λ d. text_said text.now ≡ Ok (draft_apart (said d))) }
    ensures refused { IfErr result (IsRefusal (text_said text.now)) }
{
    let mut draft = Draft::new(alloc);
    for (i, line) in text.lines().enumerate() {
        let words = words_of(alloc, line.as_bytes(), i + 1)?;
        read_line(&mut draft, &words)?;
    }
    Ok(draft)
}

/// The program that a text says, or its first fault.
pub fn read_source<'a>(alloc: Global, text: &'a str) -> Result<Source<'a>, SourceFault>
    ensures said { IfOk result (λ source. source_of text.now ≡ Ok (source_said source)) }
    ensures refused { IfErr result (IsRefusal (source_of text.now)) }
{
    let draft = draft_of(alloc, text)?;
    finish(alloc, draft)
}
