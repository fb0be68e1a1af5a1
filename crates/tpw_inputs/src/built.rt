//! Workers as they are built: of an image, or of a text in assembly or occam.

ghost use Rattle.std.specs.Prelude.{◌≡◌, ◌≤◌, IfOk, IfSome, None};
ghost use Rattle.tp_image.specs.Text.{IsTextOf};
ghost use Rattle.tpw_inputs.specs.Meanings.{AreImageOfText};
ghost use Rattle.tpw_why.specs.Verdicts.{IsVerdictOn};

use crate::occam::{Occam, read_occam};
use crate::symbols::debug_info;
use std::alloc::Global;
use tp_image::{Image, read_image};
use tpw_assembly::assembled_text;
use tpw_debug::{DebugInfo, Diagnostic, SourceText};
use tpw_files::{Failure, Input, InputFault, Language, TextFault, bytes_of, text_of};
use tpw_text::read_source;
use tpw_why::{Verdict, judge};

/// A worker: the bytes of its image, its text where that is in occam, and what its text says of its code. Nothing is
/// judged before a command asks for the verdict.
#[derive(Drop)]
pub struct Built<'a> {
    pub bytes: Vec<u8>,
    pub occam: Option<Occam<'a>>,
    debug: Option<DebugInfo<'a>>,
}

impl Built<'_> {
    /// Its debug information: none, of an image in hexadecimal.
    pub fn source_text(&self) -> SourceText<'_> {
        match &self.debug {
            Some(debug) => debug.source_text(),
            None => SourceText::NONE,
        }
    }

    /// The warnings of its text.
    pub fn warnings(&self) -> &[Diagnostic] {
        match &self.occam {
            Some(occam) => &occam.compiled.warnings,
            None => &[],
        }
    }

    /// The image that its bytes say.
    pub fn image(&self, alloc: Global) -> Result<Image, Failure>
        ensures text { IfOk result (IsTextOf self.now.bytes.items) }
        ensures packet { IfOk result (λ image. image.packet ≤ 64) }
    {
        Ok(read_image(alloc, &self.bytes)?)
    }

    /// The verdict on its image.
    pub fn verdict(&self, alloc: Global) -> Result<Verdict, Failure>
        ensures { IfOk result (IsVerdictOn self.now.bytes.items) }
    {
        Ok(judge(alloc, &self.bytes)?)
    }
}

/// Builds the worker that an assembly text says.
fn build_assembly<'a>(alloc: Global, input: &Input, text: &'a str) -> Result<Built<'a>, Failure>
    ensures { IfOk result (λ built. built.occam ≡ None) }
{
    let source = read_source(alloc, text)?;
    let made = assembled_text(alloc, text, &source)?;
    let debug = tpw_assembly::debug_info(alloc, input, text, &source, &made.addresses)?;
    Ok(Built {
        bytes: made.bytes,
        occam: None,
        debug: Some(debug),
    })
}

/// Builds the worker that a text in occam says.
fn build_occam<'a>(alloc: Global, input: &Input, text: &'a [u8]) -> Result<Built<'a>, Failure>
    ensures { IfOk result (λ built. IfSome built.occam
        (λ occam. AreImageOfText occam.text.now occam.compiled.core built.bytes.items)) }
{
    let occam = read_occam(alloc, text)?;
    let bytes = occam.image_bytes(alloc)?;
    let debug = debug_info(alloc, input, occam.text, &occam.compiled)?;
    Ok(Built {
        bytes,
        occam: Some(occam),
        debug: Some(debug),
    })
}

/// Builds the worker of an image in hexadecimal, or else of assembly text. It says nothing of what is meant.
fn build_assembled<'a>(alloc: Global, input: &Input, text: &'a [u8]) -> Result<Built<'a>, Failure>
    ensures { IfOk result (λ built. built.occam ≡ None) }
{
    if text.trim_ascii().is_empty() {
        return Err(Failure::Input(InputFault::Empty));
    }
    match bytes_of(alloc, text) {
        Ok(bytes) => Ok(Built {
            bytes,
            occam: None,
            debug: None,
        }),
        Err(TextFault::Memory) => Err(Failure::Memory),
        Err(TextFault::NotADigit(_) | TextFault::HalfAByte(_)) => {
            build_assembly(alloc, input, text_of(text)?)
        }
    }
}

/// Builds the worker that the text of an input says: a text in occam, or an image in hexadecimal or else assembly text.
pub fn build<'a>(
    alloc: Global,
    input: &Input,
    language: Language,
    text: &'a [u8],
) -> Result<Built<'a>, Failure>
    ensures { IfOk result (λ built. IfSome built.occam
        (λ occam. AreImageOfText occam.text.now occam.compiled.core built.bytes.items)) }
{
    match language {
        Language::Assembly => build_assembled(alloc, input, text),
        Language::Occam => build_occam(alloc, input, text),
    }
}
