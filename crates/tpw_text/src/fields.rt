//! The fields of an image, each of which a text says once.

ghost use Rattle.std.specs.Prelude.{◌≡◌, OnOk, OnErr, IfErr, Ok};
ghost use Rattle.tpw_text.specs.Faults.{IsRefusal};
ghost use Rattle.tpw_text.specs.Drafts.{said};
ghost use Rattle.tpw_text.specs.Fields.{version_set, workspace_set, start_set, packet_set, results_set};

use crate::draft::Draft;
use crate::fault::{SourceFault, TextFault};
use crate::words::Word;
use tp_image::Version;

impl Draft<'_> {
    /// Sets the version of the image, where no statement has said it.
    #[tactic(auto, unfolding(crate::specs::Fields::version_set))]
    pub fn set_version(&mut self, word: &Word<'_>, version: Version) -> Result<(), SourceFault>
        ensures said { OnOk result (version_set word.now version (said self.old) ≡ Ok (said self.new)) }
        ensures refused { IfErr result (IsRefusal (version_set word.now version (said self.old))) }
        ensures kept { OnErr result (self.new ≡ self.old) }
    {
        if self.settled.version {
            return Err(word.fault(TextFault::Settled));
        }
        self.version = version;
        self.settled.version = true;
        Ok(())
    }

    /// Sets how many workspace words there are, where no statement has said it.
    #[tactic(auto, unfolding(crate::specs::Fields::workspace_set))]
    pub fn set_workspace(&mut self, word: &Word<'_>, workspace: u16) -> Result<(), SourceFault>
        ensures said { OnOk result (workspace_set word.now workspace (said self.old) ≡ Ok (said self.new)) }
        ensures refused { IfErr result (IsRefusal (workspace_set word.now workspace (said self.old))) }
        ensures kept { OnErr result (self.new ≡ self.old) }
    {
        if self.settled.workspace {
            return Err(word.fault(TextFault::Settled));
        }
        self.workspace = workspace;
        self.settled.workspace = true;
        Ok(())
    }

    /// Sets the first Wptr, where no statement has said it.
    #[tactic(auto, unfolding(crate::specs::Fields::start_set))]
    pub fn set_start(&mut self, word: &Word<'_>, start: u16) -> Result<(), SourceFault>
        ensures said { OnOk result (start_set word.now start (said self.old) ≡ Ok (said self.new)) }
        ensures refused { IfErr result (IsRefusal (start_set word.now start (said self.old))) }
        ensures kept { OnErr result (self.new ≡ self.old) }
    {
        if self.settled.start {
            return Err(word.fault(TextFault::Settled));
        }
        self.start = start;
        self.settled.start = true;
        Ok(())
    }

    /// Sets the words of the packet, where no statement has said it.
    #[tactic(auto, unfolding(crate::specs::Fields::packet_set))]
    pub fn set_packet(&mut self, word: &Word<'_>, packet: u16) -> Result<(), SourceFault>
        ensures said { OnOk result (packet_set word.now packet (said self.old) ≡ Ok (said self.new)) }
        ensures refused { IfErr result (IsRefusal (packet_set word.now packet (said self.old))) }
        ensures kept { OnErr result (self.new ≡ self.old) }
    {
        if self.settled.packet {
            return Err(word.fault(TextFault::Settled));
        }
        self.packet = packet;
        self.settled.packet = true;
        Ok(())
    }

    /// Sets the words of the result, where no statement has said it.
    #[tactic(auto, unfolding(crate::specs::Fields::results_set))]
    pub fn set_results(&mut self, word: &Word<'_>, results: u16) -> Result<(), SourceFault>
        ensures said { OnOk result (results_set word.now results (said self.old) ≡ Ok (said self.new)) }
        ensures refused { IfErr result (IsRefusal (results_set word.now results (said self.old))) }
        ensures kept { OnErr result (self.new ≡ self.old) }
    {
        if self.settled.results {
            return Err(word.fault(TextFault::Settled));
        }
        self.results = results;
        self.settled.results = true;
        Ok(())
    }
}
