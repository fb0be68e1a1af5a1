//! The worker that packets are run on, as its author has it.

use std::alloc::Global;
use std::io::Write;
use tp_image::read_image;
use tpw_debug::{SourceText, Statement};
use tpw_files::{Failure, Input, Language};
use tpw_step::flag_set_at;

/// A worker: where it is read, in which language, the bytes of its image, and what its text says of the code.
#[derive(Clone, Copy)]
pub struct Subject<'a> {
    pub input: &'a Input,
    pub language: Language,
    pub bytes: &'a [u8],
    pub source: SourceText<'a>,
}

impl Subject<'_> {
    /// Writes where the packet of a number sets its error flag first: in a line of the text, or at an address of an image.
    /// If it does not, nothing is written.
    pub fn write_flag<W: Write>(
        &self,
        alloc: Global,
        number: usize,
        packet: &[u8],
        writer: &mut W,
    ) -> Result<(), Failure> {
        let image = read_image(alloc, self.bytes)?;
        let Some(at) = flag_set_at(alloc, image, packet)? else {
            return Ok(());
        };
        let statement = usize::try_from(at)
            .ok()
            .and_then(|at| self.source.statement_at(at));
        let written = match statement {
            Some(Statement { line, text, .. }) => {
                write!(
                    writer,
                    "packet {number} sets the flag first on line {line}: {text}\n"
                )
            }
            None => write!(writer, "packet {number} sets the flag first at {at}\n"),
        };
        written.map_err(|_| Failure::Write)
    }
}
