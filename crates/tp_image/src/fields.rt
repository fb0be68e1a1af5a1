//! Images of fields that may be out of range.

ghost use Rattle.std.specs.Prelude.{◌≡◌, ◌<◌, ◌^◌, All, IfOk, MatchResult, None, Some};
ghost use Rattle.tp_image.specs.Image.{IsRow};
ghost use Rattle.tp_image.specs.Text.{header_of};
ghost use Rattle.tp_image.specs.Faults.{field_fault};
ghost use Rattle.tp_image.specs.View.{image_said};

use crate::fault::ImageFault;
use crate::header::Header;
use crate::image::{Image, LoopRow, Version};

/// The fields of an image, in a range or not.
#[derive(Debug, Drop)]
pub struct Fields {
    pub version: Version,
    /// Workspace words.
    pub workspace: u32,
    /// The first value of Wptr, as a workspace word.
    pub start: u32,
    /// Packet words.
    pub packet: u32,
    /// Result words.
    pub result: u32,
    /// Rows whose fields fit into the 16 bits that each has in an image's bytes.
    pub loops: Vec<LoopRow>,
    /// The first words of the workspace.
    pub initial: Vec<u32>,
    /// Instruction bytes.
    pub code: Vec<u8>,
}

impl Fields {
    /// The header of an image with these fields.
    fn header(&self) -> Header
        ensures header { result ≡ header_of (image_said self.now) }
        ensures words { All (λ word. word < 2 ^ 32) self.now.initial.items }
        ensures bytes { All (λ byte. byte < 256) self.now.code.items }
    {
        let code = self.code.as_slice();
        let initial = self.initial.as_slice();
        Header {
            version: self.version,
            code: code.len(),
            workspace: self.workspace,
            start: self.start,
            packet: self.packet,
            result: self.result,
            loops: self.loops.len(),
            initial: initial.len(),
        }
    }
}

impl Image {
    /// The image with these fields, or the refusal of the first that is out of its range: F3 to F8, or F10, with the
    /// place that the field has in an image's bytes. It takes no memory.
    pub fn new(fields: Fields) -> Result<Image, ImageFault>
        requires rows { All IsRow fields.loops.items }
        ensures image { IfOk result (λ image. image ≡ image_said fields) }
        ensures first { MatchResult result (λ _. field_fault (header_of (image_said fields)) ≡ None)
            (λ fault. field_fault (header_of (image_said fields)) ≡ Some fault) }
    {
        fields.header().check_fields()?;
        Ok(Image {
            version: fields.version,
            workspace: fields.workspace,
            start: fields.start,
            packet: fields.packet,
            result: fields.result,
            loops: fields.loops,
            initial: fields.initial,
            code: fields.code,
        })
    }
}
