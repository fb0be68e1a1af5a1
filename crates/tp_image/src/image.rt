//! The fields of an image.

ghost use Rattle.std.specs.Prelude.{◌≡◌};
ghost use Rattle.tp_image.specs.Image.{InRange, number_of};

use crate::layout::{HEADER_BYTES_1, HEADER_BYTES_2};
use crate::limits::{
    MAX_CODE_BYTES_1, MAX_CODE_BYTES_2, MAX_WORKSPACE_WORDS_1, MAX_WORKSPACE_WORDS_2,
};
use std::marker::Model;

/// A version of the image format.
#[derive(Clone, Copy, Debug, PartialEq, Eq)]
pub enum Version {
    /// The magic `TPW1`.
    One,
    /// The magic `TPW2`: more code and workspace, and initial words.
    Two,
}

impl Version {
    ghost use Rattle.tp_image.specs.Limits.{most_code, most_workspace};
    ghost use Rattle.tp_image.specs.Layout.{header_bytes};

    /// The bytes of a header, its magic counted.
    pub(crate) fn header_bytes(self) -> usize
        ensures { result ≡ header_bytes self }
    {
        match self {
            Version::One => HEADER_BYTES_1,
            Version::Two => HEADER_BYTES_2,
        }
    }

    /// The most code bytes and the most workspace words.
    pub fn most(self) -> (u32, u32)
        ensures code { result.0 ≡ most_code self }
        ensures workspace { result.1 ≡ most_workspace self }
    {
        match self {
            Version::One => (MAX_CODE_BYTES_1, MAX_WORKSPACE_WORDS_1),
            Version::Two => (MAX_CODE_BYTES_2, MAX_WORKSPACE_WORDS_2),
        }
    }
}

/// A row of the loop table.
#[derive(Clone, Copy, Debug, PartialEq, Eq)]
pub struct LoopRow {
    /// The code byte at which the loop's body begins.
    pub head: u32,
    /// The code byte at which its lend begins.
    pub lend: u32,
    /// The workspace word that keeps the loop's index. The word after it keeps the count.
    pub control: u32,
    /// How many turns the loop makes.
    pub count: u32,
    /// The index of the first turn.
    pub start: i32,
}

/// A worker's image: its memory, its messages, its loops and its code. Each field is in the range of
/// the image's version, so there is no image out of range.
#[derive(Debug, Drop)]
pub struct Image {
    /// The version of the format: its number is `version()`.
    pub version: Version,
    /// Workspace words.
    pub workspace: u32,
    /// The first value of Wptr, as a workspace word.
    pub start: u32,
    /// Packet words.
    pub packet: u32,
    /// Result words.
    pub result: u32,
    /// At most 16 rows, which are judged with the code.
    pub loops: Vec<LoopRow>,
    /// The first words of the workspace. The others begin with 0.
    pub initial: Vec<u32>,
    /// Instruction bytes.
    pub code: Vec<u8>,
}

impl Model for Image {
    ghost use Rattle.tp_image.specs.Image.{ImageValue, InRange};

    ghost Value = { ImageValue };

    ghost use Rattle.tp_image.specs.View.{value_of};

    ghost view = { value_of };

    ghost invariant = { λ a. InRange (value_of a) };
}

impl Image {
    /// A law: every image is in range.
    pub fn law_is_in_range(&self)
        ensures { InRange self.now }
    {
        // Naming a field gives the type's invariant.
        let _ = &self.code;
    }

    /// The version of the format: 1 or 2.
    pub fn version(&self) -> u8
        ensures { result ≡ number_of self.now.version }
    {
        match self.version {
            Version::One => 1,
            Version::Two => 2,
        }
    }
}
