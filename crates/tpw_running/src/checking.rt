//! `run --check`: what packets' runs give, beside what the text in occam means by the packets.

ghost use Rattle.std.specs.Prelude.{◌≡◌, ◌++◌, Some, OnOk};
ghost use Rattle.std.specs.Option.{option_map};
ghost use Rattle.tpw_running.specs.Checks.{given_value, is_for_trace, is_meant, meaning_text, wanted_text, other_text};
ghost use Rattle.tpw_running.specs.Checks.{other_numbers, unexpected_numbers, IsNothingChecked};
ghost use Rattle.tpw_runs.specs.Lines.{is_other};
ghost use Rattle.tp_collect.specs.declared.collected.Entry.TheVariants as became;

use crate::meaning::Meant;
use std::alloc::{AllocError, Global};
use std::io::Write;
use tp_collect::{Done, Entry, LostCause};
use tp_link::{DeviceFault, Link, LinkFault};
use tpw_files::Failure;
use tpw_occam_interpreter::Given;
use tpw_occam_scoped::Process;
use tpw_runs::{Form, Report, Style, Tally, is_other, write_expected, write_whole_line};

/// Compares what becomes of packets with what a text in occam means by them, and with the results that are expected where
/// a form has such, and shows where they differ.
#[derive(Drop)]
pub struct Checking<'a> {
    alloc: Global,
    core: &'a Process,
    style: Style,
    form: Form<'a>,
    /// The budget of the worker's image.
    budget: u32,
    pub tally: Tally,
    /// The numbers of the packets that have something else than the text means.
    pub others: Vec<usize>,
    /// The numbers of those that have not the result that is expected.
    pub unexpected: Vec<usize>,
}

impl<'a> Checking<'a> {
    /// Nothing yet.
    pub fn new(
        alloc: Global,
        core: &'a Process,
        style: Style,
        form: Form<'a>,
        budget: u32,
    ) -> Checking<'a>
        ensures { IsNothingChecked core.now style form.entry budget result }
    {
        Checking {
            alloc,
            core,
            style,
            form,
            budget,
            tally: Tally::new(),
            others: Vec::new(alloc),
            unexpected: Vec::new(alloc),
        }
    }
}

/// Whether a packet was lost for its trace.
fn is_for_trace(cause: LostCause) -> bool
    ensures { result ≡ is_for_trace cause }
{
    match cause {
        LostCause::Link(
            LinkFault {
                link: Link::Trace,
                code: DeviceFault::Full,
            },
        ) => true,
        LostCause::Link(_) | LostCause::Stopped => false,
    }
}

/// Whether a run's result is the one that is meant.
fn is_given(done: &Done, given: &Given) -> bool
    ensures { result ≡ is_meant (became.Done done.now) (Some (given_value given.now)) }
{
    done.result.as_slice() == given.result.as_slice()
        && u8::from(done.error) == u8::from(given.flag)
        && done.trace.as_slice() == given.traced.as_slice()
}

/// Whether a run gives what is meant.
fn is_meant(entry: &Entry, meant: &Meant) -> bool
    ensures { result ≡ is_meant entry.now (option_map given_value meant.now.given) }
{
    match (entry, &meant.given) {
        (Entry::Done(done), Some(given)) => is_given(done, given),
        (Entry::Lost(cause), None) => is_for_trace(*cause),
        _ => false,
    }
}

/// Writes what is meant, where a run gives something else.
fn write_meaning(
    out: &mut Vec<u8>,
    style: Style,
    number: usize,
    entry: &Entry,
    meant: &Meant,
) -> Result<(), AllocError>
    ensures { OnOk result (out.new.items ≡ out.old.items
        ++ meaning_text style number entry.now (option_map given_value meant.now.given)) }
{
    if is_meant(entry, meant) {
        return Ok(());
    }
    out.extend_from_slice(b"  the text means\n")?;
    meant.write_lines(out, style, number)
}

/// Writes what is expected, where a run gives something else.
fn write_wanted(
    out: &mut Vec<u8>,
    form: Form<'_>,
    number: usize,
    entry: &Entry,
) -> Result<(), AllocError>
    ensures { OnOk result (out.new.items ≡ out.old.items ++ wanted_text form.entry number entry.now) }
{
    if !is_other(form, number, entry) {
        return Ok(());
    }
    match form {
        Form::Differences(style, expected) => write_expected(out, style, expected.get(number)),
        Form::Lines(_) | Form::Raw => Ok(()),
    }
}

/// Writes what a run gives, and what is meant and what is expected, where these differ from it.
fn write_other(
    out: &mut Vec<u8>,
    style: Style,
    form: Form<'_>,
    budget: u32,
    number: usize,
    entry: &Entry,
    meant: &Meant,
) -> Result<(), AllocError>
    ensures { OnOk result (out.new.items ≡ out.old.items
        ++ other_text style form.entry budget number entry.now (option_map given_value meant.now.given)) }
{
    if is_meant(entry, meant) && !is_other(form, number, entry) {
        return Ok(());
    }
    write_whole_line(out, style, budget, number, entry)?;
    write_meaning(out, style, number, entry, meant)?;
    write_wanted(out, form, number, entry)
}

/// Appends the number of a packet, where what a run gives differs from what is meant.
fn push_other(
    others: &mut Vec<usize>,
    number: usize,
    entry: &Entry,
    meant: &Meant,
) -> Result<(), AllocError>
    ensures { OnOk result (others.new.items ≡ others.old.items
        ++ other_numbers number entry.now (option_map given_value meant.now.given)) }
{
    if is_meant(entry, meant) {
        return Ok(());
    }
    others.push(number)?;
    Ok(())
}

/// Appends the number of a packet that has not the result that is expected.
fn push_unexpected(
    unexpected: &mut Vec<usize>,
    form: Form<'_>,
    number: usize,
    entry: &Entry,
) -> Result<(), AllocError>
    ensures { OnOk result (unexpected.new.items ≡ unexpected.old.items
        ++ unexpected_numbers form.entry number entry.now) }
{
    if is_other(form, number, entry) {
        unexpected.push(number)?;
    }
    Ok(())
}

impl Report for Checking<'_> {
    ghost use Rattle.tpw_running.specs.Checks.{checked_count, checked_text, CheckedNext};

    ghost count = { checked_count };

    ghost text = { checked_text };

    ghost becomes = { CheckedNext };

    fn show(&mut self, out: &mut Vec<u8>, packet: &[u8], entry: &Entry) -> Result<(), AllocError> {
        let number = self.tally.packets();
        let meant = Meant::of(self.alloc, self.core, packet)?;
        let form = self.form;
        write_other(out, self.style, form, self.budget, number, entry, &meant)?;
        push_other(&mut self.others, number, entry, &meant)?;
        push_unexpected(&mut self.unexpected, form, number, entry)?;
        self.tally.add_entry(form, entry);
        Ok(())
    }
}

/// Writes the last line of a check: of how many packets the run has made another result than the text means.
pub fn write_checked<W: Write>(
    writer: &mut W,
    packets: usize,
    others: usize,
) -> Result<(), Failure> {
    let written = if others == 0 {
        write!(writer, "checked {packets}, each is what the text means\n")
    } else {
        write!(
            writer,
            "checked {packets}, {others} differ: a fault of the compiler; please report it, with the text\n"
        )
    };
    match written.and_then(|()| writer.flush()) {
        Ok(()) => Ok(()),
        Err(_) => Err(Failure::Write),
    }
}
