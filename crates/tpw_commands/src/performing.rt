//! The commands on a worker.

ghost use Rattle.std.specs.Prelude.{◌≡◌, ◌≤◌, ◌*◌, All, IfOk, IfErr, IfSome, length};
ghost use Rattle.tp_image.specs.Text.{IsTextOf};
ghost use Rattle.tpw_command_line.specs.Endings.{status_of};
ghost use Rattle.tpw_occam.specs.Compilation.{IsCompiled};

use std::alloc::Global;
use std::io::{Eprint, Read, Write};
use std::rt::Files;
use std::sync::Wait;
use std::thread::Threads;
use std::time::Clock;
use tp_accept::Accepted;
use tp_image::layout::WORD_BYTES;
use tpw_command_line::{
    Asked, Ending, FollowOptions, OutputOptions, PacketSource, ProfileOptions, Report, RunOptions,
    StepOptions, Work,
};
use tpw_files::{Failure, Inputs, Outcome, Terminal};
use tpw_inputs::{Built, Occam};
use tpw_judging::{write_list, write_why};
use tpw_running::{
    Prepared, Subject, Text, evaluate_packets, follow_packet, write_check, write_run,
};
use tpw_stepping::{Counted, excerpt_of, write_profile, write_step};
use tpw_why::Verdict;

/// A run of an accepted image, prepared: the packets that are asked for, each as long as its own.
fn prepare_run<T: Files, R: Read>(
    alloc: Global,
    inputs: &mut Inputs<'_, T, R>,
    image: Accepted,
    output: &OutputOptions,
) -> Result<Prepared, Ending>
    ensures { IfOk result (λ run. All (λ p. length p.items ≡ 4 * run.image.image.packet) run.packets.items) }
{
    let packets = output.source.packets(alloc, inputs, image.packet_bytes())?;
    let expected = output.expected(alloc, inputs, image.result_bytes())?;
    Ok(Prepared {
        image,
        packets,
        expected,
    })
}

/// The image of a worker, where it is accepted. Where it is refused, that is a fault of a text in occam; of any other
/// worker `errors` has the explanation of `why`.
fn accepted_worker<E: Write>(
    alloc: Global,
    worker: &Built<'_>,
    errors: &mut E,
) -> Result<Option<Accepted>, Failure>
    ensures { IfOk result (λ found. IfSome found (λ accepted. IsTextOf worker.now.bytes.items accepted.image)) }
{
    match (worker.verdict(alloc)?, &worker.occam) {
        (Verdict::Accepted(accepted), _) => Ok(Some(accepted)),
        (Verdict::Refused { code, place }, Some(occam)) => {
            Err(occam.refused(alloc, &worker.bytes, code, place)?)
        }
        (verdict, None) => {
            write_why(alloc, &worker.bytes, &verdict, worker.source_text(), errors)?;
            Ok(None)
        }
    }
}

/// Finds that the verifier accepts a worker in occam.
pub fn check_acceptance(alloc: Global, worker: &Built<'_>) -> Result<(), Failure> {
    match (worker.verdict(alloc)?, &worker.occam) {
        (Verdict::Refused { code, place }, Some(occam)) => {
            Err(occam.refused(alloc, &worker.bytes, code, place)?)
        }
        _ => Ok(()),
    }
}

/// Runs the packets that are asked for on a worker, where it is accepted, and writes what becomes of each.
fn run_worker<T, R: Read, W: Write, E: Write>(
    rt: &T,
    alloc: Global,
    inputs: &mut Inputs<'_, T, R>,
    worker: &Built<'_>,
    writer: &mut W,
    terminal: &mut Terminal<'_, E>,
    asked: &Asked,
    running: &RunOptions,
) -> Result<Outcome, Ending>
where
    T: Files + Threads + Wait + Clock + Eprint + Sync,
    ensures { IfErr result (λ e. status_of e ≡ 2 → W.contents writer.new ≡ W.contents writer.old) }
{
    let Some(image) = accepted_worker(alloc, worker, terminal.errors)? else {
        return Ok(Outcome::Bad);
    };
    let prepared = prepare_run(alloc, inputs, image, &running.output)?;
    let subject = Subject {
        input: &asked.input,
        language: asked.language,
        bytes: &worker.bytes,
        source: worker.source_text(),
    };
    match &worker.occam {
        Some(occam) if running.check => Ok(write_check(
            rt,
            alloc,
            &prepared,
            running,
            &occam.compiled.core,
            subject,
            writer,
            terminal,
        )?),
        _ => Ok(write_run(rt, alloc, &prepared, running, subject, writer, terminal)?),
    }
}

/// A profile, prepared: the packets that are asked for, each as long as those of a worker.
fn prepare_profile<T: Files, R: Read>(
    alloc: Global,
    inputs: &mut Inputs<'_, T, R>,
    worker: &Built<'_>,
    source: &PacketSource,
) -> Result<Counted, Ending>
    ensures packets { IfOk result (λ counted.
        All (λ p. length p.items ≡ 4 * counted.image.packet) counted.packets.items) }
    ensures text { IfOk result (λ counted. IsTextOf worker.now.bytes.items counted.image) }
{
    let image = worker.image(alloc)?;
    let bytes = WORD_BYTES * image.packet as usize;
    let packets = source.packets(alloc, inputs, bytes)?;
    Ok(Counted { image, packets })
}

/// Runs the packets that are asked for on a worker, accepted or not, and writes where their steps go.
fn profile_worker<T, R: Read, W: Write, E: Write>(
    rt: &T,
    alloc: Global,
    inputs: &mut Inputs<'_, T, R>,
    worker: &Built<'_>,
    writer: &mut W,
    terminal: &mut Terminal<'_, E>,
    profiling: &ProfileOptions,
) -> Result<Outcome, Ending>
where
    T: Files + Threads + Wait + Clock + Eprint + Sync,
    ensures { IfErr result (λ e. status_of e ≡ 2 → W.contents writer.new ≡ W.contents writer.old) }
{
    let counted = prepare_profile(alloc, inputs, worker, &profiling.source)?;
    Ok(write_profile(
        rt,
        alloc,
        &worker.bytes,
        &counted,
        profiling.members,
        worker.source_text(),
        writer,
        terminal,
    )?)
}

/// Runs a worker with the packet that is asked for, an instruction at a time, and writes its lines.
fn step_worker<T: Files, R: Read, W: Write>(
    alloc: Global,
    inputs: &mut Inputs<'_, T, R>,
    worker: &Built<'_>,
    writer: &mut W,
    stepping: &StepOptions,
) -> Result<Outcome, Ending>
    ensures { IfErr result (λ e. status_of e ≡ 2 → W.contents writer.new ≡ W.contents writer.old) }
{
    let image = worker.image(alloc)?;
    let excerpt = excerpt_of(alloc, &image, worker.source_text(), stepping)?;
    let packet = stepping.packet(alloc, inputs, WORD_BYTES * image.packet as usize)?;
    Ok(write_step(alloc, image, &packet, &excerpt, writer)?)
}

/// Judges a worker, and writes the verdict as it is asked for.
fn judge_worker<W: Write>(
    alloc: Global,
    worker: &Built<'_>,
    writer: &mut W,
    report: Report,
) -> Result<Outcome, Failure> {
    let source = worker.source_text();
    let verdict = worker.verdict(alloc)?;
    match report {
        Report::Why => write_why(alloc, &worker.bytes, &verdict, source, writer),
        Report::List => write_list(alloc, &worker.bytes, &verdict, source, writer),
    }
}

/// Does what is asked with a worker.
pub fn perform_on<T, R: Read, W: Write, E: Write>(
    rt: &T,
    inputs: &mut Inputs<'_, T, R>,
    alloc: Global,
    worker: &Built<'_>,
    writer: &mut W,
    terminal: &mut Terminal<'_, E>,
    asked: &Asked,
    work: &Work,
) -> Result<Outcome, Ending>
where
    T: Files + Threads + Wait + Clock + Eprint + Sync,
    ensures { IfErr result (λ e. status_of e ≡ 2 → W.contents writer.new ≡ W.contents writer.old) }
{
    match work {
        Work::Profile(profiling) => profile_worker(
            rt, alloc, inputs, worker, writer, terminal, profiling,
        ),
        Work::Run(running) => run_worker(
            rt, alloc, inputs, worker, writer, terminal, asked, running,
        ),
        Work::Step(stepping) => step_worker(alloc, inputs, worker, writer, stepping),
        Work::Judge(report) => Ok(judge_worker(alloc, worker, writer, *report)?),
    }
}

/// Evaluates the packets that are asked for on a text in occam, and writes what the text means by each.
pub fn evaluate_text<T: Files, R: Read, W: Write, E: Write>(
    alloc: Global,
    inputs: &mut Inputs<'_, T, R>,
    occam: &Occam<'_>,
    writer: &mut W,
    terminal: &mut Terminal<'_, E>,
    output: &OutputOptions,
) -> Result<Outcome, Ending>
    requires { IsCompiled occam.now.text.now occam.now.compiled }
    ensures { IfErr result (λ e. status_of e ≡ 2 → W.contents writer.new ≡ W.contents writer.old) }
{
    let packets = output.source.packets(alloc, inputs, occam.packet_bytes())?;
    let expected = output.expected(alloc, inputs, occam.result_bytes())?;
    let form = output.form(&expected);
    let core = &occam.compiled.core;
    Ok(evaluate_packets(
        alloc,
        occam.text,
        core,
        &packets,
        form,
        writer,
        terminal.errors,
    )?)
}

/// Evaluates the packet that is asked for on a text in occam, and writes what its statements do, and what the text means by
/// it.
pub fn follow_text<T: Files, R: Read, W: Write>(
    alloc: Global,
    inputs: &mut Inputs<'_, T, R>,
    occam: &Occam<'_>,
    writer: &mut W,
    following: &FollowOptions,
) -> Result<Outcome, Ending>
    requires { IsCompiled occam.now.text.now occam.now.compiled }
    ensures { IfErr result (λ e. status_of e ≡ 2 → W.contents writer.new ≡ W.contents writer.old) }
{
    let packet = following
        .packet
        .packet(alloc, inputs, occam.packet_bytes())?;
    let lines: Vec<&str> = occam.text.lines().collect(alloc)?;
    let names = occam.names(alloc)?;
    let text = Text {
        lines: &lines,
        names: &names,
    };
    let number = following.packet.number;
    let style = following.style;
    let core = &occam.compiled.core;
    Ok(follow_packet(alloc, core, text, &packet, number, style, writer)?)
}
