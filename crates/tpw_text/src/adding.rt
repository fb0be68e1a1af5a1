//! Statements, added to a draft.

ghost use Rattle.std.specs.Prelude.{◌≡◌, OnOk, IfErr, Ok};
ghost use Rattle.tpw_text.specs.Faults.{IsRefusal};
ghost use Rattle.tpw_text.specs.Drafts.{said};
ghost use Rattle.tpw_text.specs.Meaning.{initial_added, added};

use crate::draft::Draft;
use crate::fault::{SourceFault, TextFault};
use crate::statement::Statement;
use crate::words::Word;

impl<'a> Draft<'a> {
    /// Adds the value of an initial word.
    #[tactic(auto, unfolding(crate::specs::Meaning::initial_added))]
    fn add_initial(&mut self, at: &Word<'_>, place: u16, value: u32) -> Result<(), SourceFault>
        ensures said { OnOk result (initial_added at.now place value (said self.old) ≡ Ok (said self.new)) }
        ensures refused { IfErr result (IsRefusal (initial_added at.now place value (said self.old))) }
    {
        let place = usize::from(place);
        if place < self.initial.len() {
            return Err(at.fault(TextFault::InitialBelow));
        }
        self.initial.resize(place, 0)?;
        self.initial.push(value)?;
        Ok(())
    }

    /// Adds what a statement says.
    #[tactic(auto, unfolding(crate::specs::Meaning::added))]
    pub fn add(&mut self, statement: Statement<'a>) -> Result<(), SourceFault>
        ensures said { OnOk result (added statement.entry (said self.old) ≡ Ok (said self.new)) }
        ensures refused { IfErr result (IsRefusal (added statement.entry (said self.old))) }
    {
        match statement {
            Statement::Nothing => Ok(()),
            Statement::Packet(word, words) => self.set_packet(&word, words),
            Statement::Results(word, words) => self.set_results(&word, words),
            Statement::Start(word, start) => self.set_start(&word, start),
            Statement::Workspace(word, words) => self.set_workspace(&word, words),
            Statement::Version(word, version) => self.set_version(&word, version),
            Statement::Initial(at, place, value) => self.add_initial(&at, place, value),
            Statement::Line(line) => self.push(&line.word, line.line),
            Statement::Row(word, row) => self.push_row(&word, row),
        }
    }
}
