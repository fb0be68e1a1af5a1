//! The draft of a text, with labels as they are in it.

ghost use Rattle.std.specs.Prelude.{◌≡◌, OnOk, OnErr, IfErr, Ok, true};
ghost use Rattle.tpw_text.specs.Faults.{IsRefusal};
ghost use Rattle.tpw_text.specs.Drafts.{said, empty, is_full, place_named, pushed, label_set, row_added};

use crate::fault::{SourceFault, TextFault};
use crate::words::{Position, Word};
use std::alloc::Global;
use tp_image::Version;
use tp_image::limits::{MAX_LOOP_ROWS, MIN_WORKSPACE};
use tpw_asm::Line;

/// The most lines, labels and words that are read: more than a worker can have.
pub const MOST: usize = 16_384;

/// The most words of a workspace that are read.
pub const MAX_WORDS: u16 = 4096;

/// A label, and its place.
#[derive(Clone, Copy)]
pub struct LabelName<'a> {
    pub word: Word<'a>,
    pub place: usize,
}

/// A line, maybe with labels.
#[derive(Clone, Copy)]
pub enum DraftLine<'a> {
    Known(Line),
    Jump(Word<'a>, Option<u8>),
    Cj(Word<'a>, Option<u8>),
    /// `ldc` of the bytes to the first label from the second.
    Distance(Word<'a>, Word<'a>, Option<u8>),
}

/// Where a loop begins or ends.
#[derive(Clone, Copy)]
pub enum Target<'a> {
    Label(Word<'a>),
    Address(u16),
}

/// A row, maybe with labels. Its control word is the workspace word that keeps the loop's index.
#[derive(Clone, Copy)]
pub struct Row<'a> {
    pub head: Target<'a>,
    pub lend: Target<'a>,
    pub control: u16,
    pub count: u16,
    pub start: i32,
}

/// Which fields of the image are said, and so no statement may say them any more.
#[derive(Clone, Copy)]
pub struct Settled {
    pub version: bool,
    pub workspace: bool,
    pub start: bool,
    pub packet: bool,
    pub results: bool,
}

/// The draft so far.
#[derive(Drop)]
pub struct Draft<'a> {
    pub version: Version,
    pub workspace: u16,
    pub start: u16,
    pub settled: Settled,
    pub packet: u16,
    pub results: u16,
    pub initial: Vec<u32>,
    pub lines: Vec<DraftLine<'a>>,
    /// The place of the word that asks for each line.
    pub positions: Vec<Position>,
    pub labels: Vec<LabelName<'a>>,
    pub rows: Vec<Row<'a>>,
}

/// The place that a label names.
#[tactic(auto, unfolding(crate::specs::Drafts::place_named))]
pub fn place_named(labels: &[LabelName<'_>], word: &Word<'_>) -> Option<usize>
    ensures { result ≡ place_named labels.now word.now }
{
    labels
        .iter()
        .find(|label| label.word.text == word.text)
        .map(|label| label.place)
}

impl<'a> Draft<'a> {
    pub fn new(alloc: Global) -> Self
        ensures { said result ≡ empty }
    {
        Draft {
            version: Version::One,
            workspace: MIN_WORKSPACE as u16,
            start: 5,
            settled: Settled {
                version: false,
                workspace: false,
                start: false,
                packet: false,
                results: false,
            },
            packet: 1,
            results: 1,
            initial: Vec::new(alloc),
            lines: Vec::new(alloc),
            positions: Vec::new(alloc),
            labels: Vec::new(alloc),
            rows: Vec::new(alloc),
        }
    }

    /// Adds a line that a word of the text asks for.
    #[tactic(auto, unfolding(crate::specs::Drafts::pushed))]
    pub fn push(&mut self, word: &Word<'_>, line: DraftLine<'a>) -> Result<(), SourceFault>
        ensures said { OnOk result (pushed word.now line.entry (said self.old) ≡ Ok (said self.new)) }
        ensures refused { IfErr result (IsRefusal (pushed word.now line.entry (said self.old))) }
        ensures kept { is_full self.old.lines.items ≡ true → self.new ≡ self.old }
    {
        if self.lines.len() >= MOST {
            return Err(word.fault(TextFault::TooMany));
        }
        self.lines.push(line)?;
        self.positions.push(word.position())?;
        Ok(())
    }

    /// Sets a label here.
    #[tactic(auto, unfolding(crate::specs::Drafts::label_set))]
    pub fn set_label(&mut self, word: &Word<'a>) -> Result<(), SourceFault>
        ensures said { OnOk result (label_set word.now (said self.old) ≡ Ok (said self.new)) }
        ensures refused { IfErr result (IsRefusal (label_set word.now (said self.old))) }
        ensures kept { OnErr result (said self.new ≡ said self.old) }
    {
        if place_named(&self.labels, word).is_some() {
            return Err(word.fault(TextFault::Twice));
        }
        if self.labels.len() >= MOST {
            return Err(word.fault(TextFault::TooMany));
        }
        let place = self.lines.len();
        self.labels.push(LabelName { word: *word, place })?;
        Ok(())
    }

    /// Adds a row that a word begins.
    #[tactic(auto, unfolding(crate::specs::Drafts::row_added))]
    pub fn push_row(&mut self, word: &Word<'_>, row: Row<'a>) -> Result<(), SourceFault>
        ensures said { OnOk result (row_added word.now row.entry (said self.old) ≡ Ok (said self.new)) }
        ensures refused { IfErr result (IsRefusal (row_added word.now row.entry (said self.old))) }
        ensures kept { OnErr result (said self.new ≡ said self.old) }
    {
        if self.rows.len() >= MAX_LOOP_ROWS as usize {
            return Err(word.fault(TextFault::TooManyLoops));
        }
        self.rows.push(row)?;
        Ok(())
    }
}
