//! Reports of packets that are run, one after another.

ghost use Rattle.std.specs.Prelude.{◌≡◌, ◌++◌, ◌+◌, ◌<◌, ◌^◌, [], OnOk};
ghost use Rattle.tpw_runs.specs.Shown.{unshown, IsNothingShown};

use crate::form::Form;
use crate::lines::write_entry;
use crate::tally::Tally;
use std::alloc::{AllocError, Global};
use tp_collect::{Entry, LostCause};

/// Shows packets, and what became of them, one after another.
pub trait Report {
    ghost use Rattle.std.specs.Prelude.{ℕ, List};
    ghost use Rattle.tp_collect.specs.declared.collected.Entry.{Entry};

    // How many packets it has shown.
    ghost count: { Self → ℕ };

    // What it shows of the next packet, by its bytes and what became of it.
    ghost text: { Self → List ℕ → Entry → List ℕ };

    // It becomes this one by that.
    ghost becomes: { Self → List ℕ → Entry → Self → Type 0 };

    /// Appends what is shown of the next packet.
    fn show(&mut self, out: &mut Vec<u8>, packet: &[u8], entry: &Entry) -> Result<(), AllocError>
        requires { count self.old < 2 ^ 63 }
        ensures count { OnOk result (count self.new ≡ count self.old + 1) }
        ensures text { OnOk result (out.new.items ≡ out.old.items ++ text self.old packet.now entry.now) }
        ensures next { OnOk result (becomes self.old packet.now entry.now self.new) };
}

/// A packet that was lost, by its number.
#[derive(Clone, Copy, Debug, PartialEq, Eq)]
pub struct Loss {
    pub number: usize,
    pub cause: LostCause,
}

/// The outcomes of packets, shown in a form, and counted.
#[derive(Drop)]
pub struct Shown<'e> {
    form: Form<'e>,
    /// The budget of the packets' image.
    budget: u32,
    pub tally: Tally,
    /// The packets that were lost and of which the form shows nothing.
    pub unshown: Vec<Loss>,
}

impl<'e> Shown<'e> {
    /// Nothing yet.
    pub fn new(alloc: Global, form: Form<'e>, budget: u32) -> Shown<'e>
        ensures { IsNothingShown form.entry budget result }
    {
        Shown {
            form,
            budget,
            tally: Tally::new(),
            unshown: Vec::new(alloc),
        }
    }
}

/// Appends a loss of which a form shows nothing.
fn push_unshown(
    losses: &mut Vec<Loss>,
    form: Form<'_>,
    number: usize,
    entry: &Entry,
) -> Result<(), AllocError>
    ensures { OnOk result (losses.new.items ≡ losses.old.items ++ unshown form.entry number entry.now) }
{
    match (form, entry) {
        (Form::Raw, Entry::Lost(cause)) => {
            let cause = *cause;
            losses.push(Loss { number, cause })?;
            Ok(())
        }
        _ => Ok(()),
    }
}

impl Report for Shown<'_> {
    ghost use Rattle.tpw_runs.specs.Shown.{shown_count, shown_text, ShownNext};

    ghost count = { shown_count };

    ghost text = { shown_text };

    ghost becomes = { ShownNext };

    fn show(&mut self, out: &mut Vec<u8>, _packet: &[u8], entry: &Entry) -> Result<(), AllocError> {
        let number = self.tally.packets();
        write_entry(out, self.form, self.budget, number, entry)?;
        push_unshown(&mut self.unshown, self.form, number, entry)?;
        self.tally.add_entry(self.form, entry);
        Ok(())
    }
}
