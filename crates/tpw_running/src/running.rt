//! Packets, run on an accepted worker.

ghost use Rattle.std.specs.Prelude.{◌≡◌, ◌≤◌, ◌*◌, All, IfOk, OnOk, length, map};
ghost use Rattle.tpw_runs.specs.Results.{HasRun, HasShown};
ghost use Rattle.std.specs.Option.{option_map};
ghost use Rattle.tpw_running.specs.Checks.{HasChecked, IsChecked, IsFormOf, has_packets};

use crate::checking::{Checking, write_checked};
use crate::subject::Subject;
use crate::summary::{is_as_expected, write_summary};
use std::alloc::Global;
use std::io::{Eprint, Write};
use std::sync::Wait;
use std::thread::Threads;
use std::time::Clock;
use tp_accept::Accepted;
use tp_farm::members_for;
use tpw_command_line::{ReplayHint, RunOptions};
use tpw_files::{Failure, Outcome, Terminal};
use tpw_occam_scoped::Process;
use tpw_runs::{
    Expected, Form, Progress, Report, RunFault, Shown, Style, Tally, run_on_members, write_loss,
};

/// Why a batch of runs fails.
fn failure_of_run(fault: RunFault) -> Failure {
    match fault {
        RunFault::Thread => Failure::Thread,
        RunFault::Memory => Failure::Memory,
        RunFault::Write => Failure::Write,
    }
}

/// A run, prepared: packets on an accepted worker, and the results that are expected, where they are asked for.
#[derive(Drop)]
pub struct Prepared {
    pub image: Accepted,
    pub packets: Vec<Vec<u8>>,
    pub expected: Option<Vec<Expected>>,
}

/// Writes where a packet sets its error flag first: of what differs the first packet, where results are expected, else
/// the first whose flag is set.
fn write_flag<W: Write>(
    alloc: Global,
    writer: &mut W,
    prepared: &Prepared,
    subject: Subject<'_>,
    tally: &Tally,
) -> Result<(), Failure> {
    let found = match prepared.expected {
        Some(_) => tally.first,
        None => tally.flagged,
    };
    if let Some(number) = found {
        if let Some(packet) = prepared.packets.get(number) {
            subject.write_flag(alloc, number, packet, writer)?;
        }
    }
    Ok(())
}

/// Writes how to follow the first packet that has another result than the one that is expected, if there is one.
fn write_following<W: Write>(
    writer: &mut W,
    asked: &RunOptions,
    subject: Subject<'_>,
    tally: &Tally,
) -> Result<(), Failure> {
    let Some(number) = tally.first else {
        return Ok(());
    };
    let following = ReplayHint {
        source: &asked.output.source,
        input: subject.input,
        language: subject.language,
        number,
        packets: tally.packets(),
    };
    match write!(writer, "follow packet {number} by: {following}\n") {
        Ok(()) => Ok(()),
        Err(_) => Err(Failure::Write),
    }
}

/// Runs packets on an accepted image, with progress where somebody waits for it. A report shows what becomes of each.
fn run_reported<T, S: Report, W: Write>(
    rt: &T,
    alloc: Global,
    prepared: &Prepared,
    members: usize,
    report: &mut S,
    writer: &mut W,
    is_terminal: bool,
) -> Result<(), Failure>
where
    T: Threads + Wait + Clock + Eprint + Sync,
    requires whole { All (λ p. length p.items ≡ 4 * prepared.now.image.image.packet) prepared.now.packets.items }
    requires new { S.count report.old ≡ 0 }
    ensures { OnOk result (HasRun S.text S.becomes prepared.now.image (map (λ p. p.items) prepared.now.packets.items)
        (W.contents writer.old) (W.contents writer.new) report.old report.new) }
{
    let image = &prepared.image;
    let packets = &prepared.packets;
    let progress = Progress::new(rt, packets.len(), is_terminal);
    let members = members_for(members, packets.len());
    let ran = run_on_members(
        rt, alloc, image, packets, members, &progress, report, writer,
    );
    progress.clear();
    match ran {
        Ok(()) => Ok(()),
        Err(fault) => Err(failure_of_run(fault)),
    }
}

/// Runs packets on an accepted image, and shows their results in a form.
fn run_shown<'e, T, W: Write>(
    rt: &T,
    alloc: Global,
    prepared: &Prepared,
    members: usize,
    form: Form<'e>,
    writer: &mut W,
    is_terminal: bool,
) -> Result<Shown<'e>, Failure>
where
    T: Threads + Wait + Clock + Eprint + Sync,
    requires { All (λ p. length p.items ≡ 4 * prepared.now.image.image.packet) prepared.now.packets.items }
    ensures { IfOk result (HasShown prepared.now.image form.entry (map (λ p. p.items) prepared.now.packets.items)
        (W.contents writer.old) (W.contents writer.new)) }
{
    let mut shown = Shown::new(alloc, form, prepared.image.budget());
    run_reported(
        rt,
        alloc,
        prepared,
        members,
        &mut shown,
        writer,
        is_terminal,
    )?;
    Ok(shown)
}

/// The form of what differs from results that are expected, where they are.
fn form_of<'e>(style: Style, expected: &'e Option<Vec<Expected>>) -> Form<'e>
    ensures { IsFormOf (option_map (λ e. e.items) expected.now) result }
{
    match expected {
        Some(expected) => Form::Differences(style, expected),
        None => Form::Lines(style),
    }
}

/// Whether each result that is expected has one of a number of packets.
fn has_packets(expected: &Option<Vec<Expected>>, packets: usize) -> bool
    ensures { result ≡ has_packets (option_map (λ e. e.items) expected.now) packets }
{
    match expected {
        Some(expected) => expected.len() <= packets,
        None => true,
    }
}

/// Runs packets on an accepted image, and shows where what becomes of them is not what a worker means, or what a form
/// says is expected.
fn run_checked<'m, T, W: Write>(
    rt: &T,
    alloc: Global,
    prepared: &Prepared,
    members: usize,
    core: &'m Process,
    style: Style,
    form: Form<'m>,
    writer: &mut W,
    is_terminal: bool,
) -> Result<Checking<'m>, Failure>
where
    T: Threads + Wait + Clock + Eprint + Sync,
    requires { All (λ p. length p.items ≡ 4 * prepared.now.image.image.packet) prepared.now.packets.items }
    ensures { IfOk result (HasChecked prepared.now.image core.now style form.entry
        (map (λ p. p.items) prepared.now.packets.items) (W.contents writer.old) (W.contents writer.new)) }
{
    let mut checking = Checking::new(alloc, core, style, form, prepared.image.budget());
    run_reported(
        rt,
        alloc,
        prepared,
        members,
        &mut checking,
        writer,
        is_terminal,
    )?;
    Ok(checking)
}

/// Runs what is prepared, and writes what becomes of each packet.
pub fn write_run<T, W: Write, E: Write>(
    rt: &T,
    alloc: Global,
    prepared: &Prepared,
    asked: &RunOptions,
    subject: Subject<'_>,
    writer: &mut W,
    terminal: &mut Terminal<'_, E>,
) -> Result<Outcome, Failure>
where
    T: Threads + Wait + Clock + Eprint + Sync,
    requires { All (λ p. length p.items ≡ 4 * prepared.now.image.image.packet) prepared.now.packets.items }
{
    let form = asked.output.form(&prepared.expected);
    let budget = Some(prepared.image.budget());
    let is_terminal = terminal.is_terminal;
    let Shown { tally, unshown, .. } = run_shown(
        rt,
        alloc,
        prepared,
        asked.members,
        form,
        writer,
        is_terminal,
    )?;
    match form {
        // A picture or a pipe has the results alone.
        Form::Raw if tally.lost == 0 => {}
        Form::Raw => {
            for loss in &unshown {
                write_loss(terminal.errors, loss.number, loss.cause);
            }
            write_summary(terminal.errors, budget, &tally, form)?
        }
        Form::Lines(_) | Form::Differences(_, _) => {
            write_flag(alloc, writer, prepared, subject, &tally)?;
            write_following(writer, asked, subject, &tally)?;
            write_summary(writer, budget, &tally, form)?
        }
    }
    Ok(Outcome::of(is_as_expected(&tally, form)))
}

/// Runs what is prepared, and writes each packet of which something else is made than the worker means, or than is
/// expected where that is said.
pub fn write_check<T, W: Write, E: Write>(
    rt: &T,
    alloc: Global,
    prepared: &Prepared,
    asked: &RunOptions,
    core: &Process,
    subject: Subject<'_>,
    writer: &mut W,
    terminal: &mut Terminal<'_, E>,
) -> Result<Outcome, Failure>
where
    T: Threads + Wait + Clock + Eprint + Sync,
    requires { All (λ p. length p.items ≡ 4 * prepared.now.image.image.packet) prepared.now.packets.items }
    ensures { IfOk result (IsChecked prepared.now.image core.now
        (option_map (λ e. e.items) prepared.now.expected) (map (λ p. p.items) prepared.now.packets.items)) }
{
    let style = Style {
        trace: true,
        ..asked.output.style
    };
    let form = form_of(style, &prepared.expected);
    let budget = prepared.image.budget();
    let is_terminal = terminal.is_terminal;
    let checking = run_checked(
        rt,
        alloc,
        prepared,
        asked.members,
        core,
        style,
        form,
        writer,
        is_terminal,
    )?;
    let packets = prepared.packets.len();
    let others = checking.others.len();
    let unexpected = checking.unexpected.len();
    if prepared.expected.is_some() {
        write_flag(alloc, writer, prepared, subject, &checking.tally)?;
    }
    write_following(writer, asked, subject, &checking.tally)?;
    write_summary(writer, Some(budget), &checking.tally, form)?;
    write_checked(writer, packets, others)?;
    let has_packets = has_packets(&prepared.expected, packets);
    Ok(Outcome::of(others == 0 && unexpected == 0 && has_packets))
}
