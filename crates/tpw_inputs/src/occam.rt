//! Workers in occam: their texts, compiled. Their images are made, and judged, where a command asks for that.

ghost use Rattle.std.specs.Prelude.{◌≡◌, ◌*◌, ◌≤◌, IfOk};
ghost use Rattle.tp_image.specs.Text.{text as image_text};
ghost use Rattle.tpw_inputs.specs.Refusals.{IsOfOccam, IsFault};
ghost use Rattle.tpw_occam.specs.Compilation.{IsCompiled};

use crate::budget::over_budget;
use crate::symbols::words_of;
use std::alloc::{AllocError, Global};
use tp_accept::RefusalCode;
use tp_image::layout::WORD_BYTES;
use tp_image::write_image;
use tpw_debug::{Diagnostic, Named};
use tpw_files::{Failure, InputFault, text_of};
use tpw_occam::{CompiledText, Defect, OccamFault, compile_text};

/// A text in occam, and what it is compiled to.
#[derive(Drop)]
pub struct Occam<'a> {
    pub text: &'a str,
    pub compiled: CompiledText<'a>,
}

/// The failure of a command whose text the compiler does wrong with.
fn of_compiler(alloc: Global, defect: Defect) -> Failure
    ensures { IsFault result }
{
    match format!(in alloc; "{defect}") {
        Ok(text) => Failure::Input(InputFault::Compiler(text)),
        Err(_) => Failure::Memory,
    }
}

/// The failure of a command whose text has no program.
fn failure_of(alloc: Global, fault: OccamFault) -> Failure
    ensures { IsOfOccam fault result }
{
    match fault {
        OccamFault::Memory => Failure::Memory,
        OccamFault::Refused(diagnostics) => Failure::Text(diagnostics),
        OccamFault::Compiler(defect) => of_compiler(alloc, defect),
    }
}

/// One diagnostic.
fn one(alloc: Global, diagnostic: Diagnostic) -> Result<Vec<Diagnostic>, AllocError> {
    let mut diagnostics = Vec::new(alloc);
    diagnostics.push(diagnostic)?;
    Ok(diagnostics)
}

impl Occam<'_> {
    /// How many bytes a packet has.
    pub fn packet_bytes(&self) -> usize
        requires { IsCompiled self.now.text.now self.now.compiled }
        ensures value { result ≡ 4 * self.now.compiled.program.packet }
        ensures most { result ≤ 256 }
    {
        WORD_BYTES * self.compiled.program.packet as usize
    }

    /// How many bytes a result has.
    pub fn result_bytes(&self) -> usize
        requires { IsCompiled self.now.text.now self.now.compiled }
        ensures value { result ≡ 4 * self.now.compiled.program.result }
        ensures most { result ≤ 256 }
    {
        WORD_BYTES * self.compiled.program.result as usize
    }

    /// The names of its variables and arrays.
    pub fn names(&self, alloc: Global) -> Result<Vec<Named<'_>>, Failure> {
        words_of(alloc, &self.compiled.located)
    }

    /// The bytes of its image, accepted or not.
    pub fn image_bytes(&self, alloc: Global) -> Result<Vec<u8>, Failure>
        ensures { IfOk result (λ bytes. bytes.items ≡ image_text self.now.compiled.assembled.image) }
    {
        Ok(write_image(alloc, &self.compiled.assembled.image)?)
    }

    /// The failure of a command that wants the image of these bytes accepted, which is refused so. Where its budget is too
    /// large, the fault is the text's, else the compiler's.
    pub fn refused(
        &self,
        alloc: Global,
        bytes: &[u8],
        code: RefusalCode,
        place: usize,
    ) -> Result<Failure, Failure> {
        if code == RefusalCode::B1 {
            if let Some(fault) = over_budget(alloc, self.text, &self.compiled, bytes)? {
                return Ok(Failure::Text(one(alloc, fault)?));
            }
        }
        Ok(of_compiler(alloc, Defect::Refused { code, place }))
    }
}

/// Compiles a worker in occam. Nothing is judged. What the text means is `compiled.core`.
pub fn read_occam<'a>(alloc: Global, text: &'a [u8]) -> Result<Occam<'a>, Failure>
    ensures text { IfOk result (λ occam. occam.text.now ≡ text.now) }
    ensures compiled { IfOk result (λ occam. IsCompiled occam.text.now occam.compiled) }
{
    if text.trim_ascii().is_empty() {
        return Err(Failure::Input(InputFault::Empty));
    }
    let text = text_of(text)?;
    match compile_text(alloc, text) {
        Ok(compiled) => Ok(Occam { text, compiled }),
        Err(fault) => Err(failure_of(alloc, fault)),
    }
}
