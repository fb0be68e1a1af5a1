//! The header, which says how long the other parts are.

ghost use Rattle.std.specs.Prelude.{◌≡◌, ◌+◌, ◌≤◌, ◌<◌, length, MatchResult, None, Some, Err};
ghost use Rattle.tp_image.specs.Image.{most_initial};
ghost use Rattle.tp_image.specs.Text.{header_of};
ghost use Rattle.tp_image.specs.Faults.{half_word_at, header_at, version_of, image_bytes, is_outside, field_fault};
ghost use Rattle.tp_image.specs.Faults.{header_fault, first_fault, IsWholeHeader};
ghost use Rattle.tp_image.specs.Layout.{header_bytes};

use crate::fault::{ImageCode, ImageFault};
use crate::image::{Image, Version};
use crate::layout::*;
use crate::limits::*;

/// The fields of a header.
#[derive(Clone, Copy, Debug, PartialEq, Eq)]
pub struct Header {
    pub version: Version,
    /// Code bytes.
    pub code: usize,
    /// Workspace words.
    pub workspace: u32,
    /// A workspace word.
    pub start: u32,
    /// Packet words.
    pub packet: u32,
    /// Result words.
    pub result: u32,
    /// Loop rows.
    pub loops: usize,
    /// Initial words. Version 1 has none.
    pub initial: usize,
}

/// The field at a place.
fn half_word_at(bytes: &[u8], place: usize) -> u16
    requires { place + 1 < length bytes.now }
    ensures { result ≡ half_word_at bytes.now place }
{
    u16::from_le_bytes([bytes[place], bytes[place + 1]])
}

/// The version that the first four bytes spell.
fn version_of(bytes: &[u8]) -> Option<Version>
    ensures { result ≡ version_of bytes.now }
{
    if bytes.starts_with(b"TPW1") {
        Some(Version::One)
    } else if bytes.starts_with(b"TPW2") {
        Some(Version::Two)
    } else {
        None
    }
}

/// Whether a field is out of its range, both ends of which belong to it.
fn is_outside(least: u32, most: u32, n: u32) -> bool
    ensures { result ≡ is_outside least most n }
{
    !(least..=most).contains(&n)
}

/// The refusal of a test.
fn refused<T>(code: ImageCode, place: usize) -> Result<T, ImageFault>
    ensures { result ≡ Err (ImageFault.Refused code place) }
{
    Err(ImageFault::Refused { code, place })
}

impl Header {
    /// The header of an image.
    pub fn of(image: &Image) -> Self
        ensures header { result ≡ header_of image.now }
        ensures passes { field_fault result ≡ None }
    {
        Header {
            version: image.version,
            code: image.code.len(),
            workspace: image.workspace,
            start: image.start,
            packet: image.packet,
            result: image.result,
            loops: image.loops.len(),
            initial: image.initial.len(),
        }
    }

    /// The fields that bytes have as the header of an image of this version.
    fn at(version: Version, bytes: &[u8]) -> Self
        requires { header_bytes version ≤ length bytes.now }
        ensures { result ≡ header_at version bytes.now }
    {
        Header {
            version,
            code: usize::from(half_word_at(bytes, CODE_AT)),
            workspace: u32::from(half_word_at(bytes, WORKSPACE_AT)),
            start: u32::from(half_word_at(bytes, START_AT)),
            packet: u32::from(half_word_at(bytes, PACKET_AT)),
            result: u32::from(half_word_at(bytes, RESULT_AT)),
            loops: usize::from(half_word_at(bytes, LOOPS_AT)),
            initial: match version {
                Version::One => 0,
                Version::Two => usize::from(half_word_at(bytes, INITIAL_AT)),
            },
        }
    }

    /// How many bytes the whole image has.
    pub fn image_bytes(&self) -> usize
        requires { field_fault self.now ≡ None }
        ensures { result ≡ image_bytes self.now }
    {
        self.version.header_bytes() + ROW_BYTES * self.loops + WORD_BYTES * self.initial + self.code
    }

    /// Tests each field against the range of its version.
    pub fn check_fields(&self) -> Result<(), ImageFault>
        ensures { MatchResult result (λ _. field_fault self.now ≡ None) (λ fault. field_fault self.now ≡ Some fault) }
    {
        let (most_code, most_workspace) = self.version.most();
        if !(1..=most_code as usize).contains(&self.code) {
            return refused(ImageCode::F3, CODE_AT);
        }
        if is_outside(MIN_WORKSPACE, most_workspace, self.workspace) {
            return refused(ImageCode::F4, WORKSPACE_AT);
        }
        if self.start < MIN_START || self.workspace <= self.start {
            return refused(ImageCode::F5, START_AT);
        }
        if is_outside(1, MAX_MESSAGE_WORDS, self.packet) {
            return refused(ImageCode::F6, PACKET_AT);
        }
        if is_outside(1, MAX_MESSAGE_WORDS, self.result) {
            return refused(ImageCode::F7, RESULT_AT);
        }
        if self.loops > MAX_LOOP_ROWS as usize {
            return refused(ImageCode::F8, LOOPS_AT);
        }
        if self.initial > self.most_initial() as usize {
            return refused(ImageCode::F10, INITIAL_AT);
        }
        Ok(())
    }

    /// Tests the header of an image of this many bytes: each field, then the size.
    fn check(&self, bytes: usize) -> Result<(), ImageFault>
        ensures { MatchResult result (λ _. header_fault self.now bytes ≡ None)
            (λ fault. header_fault self.now bytes ≡ Some fault) }
    {
        self.check_fields()?;
        let whole = self.image_bytes();
        if bytes < whole {
            return refused(ImageCode::F2, bytes);
        }
        if bytes > whole {
            return refused(ImageCode::F9, whole);
        }
        Ok(())
    }

    /// The most initial words of an image with this workspace.
    fn most_initial(&self) -> u32
        ensures { result ≡ most_initial self.now.version self.now.workspace }
    {
        match self.version {
            Version::One => 0,
            Version::Two => self.workspace,
        }
    }
}

/// The header that bytes begin with, where they pass each test. Then they are as many as it says.
#[tactic(auto, unfolding(crate::specs::Faults::first_fault))]
pub fn read_header(bytes: &[u8]) -> Result<Header, ImageFault>
    ensures { MatchResult result (λ header. IsWholeHeader header bytes.now)
        (λ fault. first_fault bytes.now ≡ Some fault) }
{
    let Some(version) = version_of(bytes) else {
        return refused(ImageCode::F1, 0);
    };
    if bytes.len() < version.header_bytes() {
        return refused(ImageCode::F2, bytes.len());
    }
    let header = Header::at(version, bytes);
    header.check(bytes.len())?;
    Ok(header)
}
