//! The program, from its words and streams to its status.

ghost use Rattle.std.specs.Prelude.{◌≡◌, ◌≤◌, IfErr, IfOk};
ghost use Rattle.std.specs.Process.{exit_status};
ghost use Rattle.tpw_command_line.specs.Endings.{status_of};
ghost use Rattle.tpw_commands.specs.Endings.{EndsEarly, status_by};
ghost use Rattle.tpw_occam.specs.Compilation.{IsCompiled};

use crate::assembling::{assemble_text, write_image};
use crate::output::{Output, settle};
use crate::performing::{check_acceptance, evaluate_text, follow_text, perform_on};
use crate::reporting::{report, report_failure};
use crate::translating::translate;
use std::alloc::Global;
use std::env::Env;
use std::fmt;
use std::io::{Eprint, Read, Write};
use std::process::ExitCode;
use std::rt::Files;
use std::sync::Wait;
use std::thread::Threads;
use std::time::Clock;
use tpw_command_line::{Asked, Ending, Task, asked_by, words_of};
use tpw_debug::Diagnostic;
use tpw_files::{Failure, Input, Inputs, Language, Outcome, Terminal};
use tpw_inputs::{Occam, build, read_occam};
use tpw_judging::disassemble_image;

/// Compiles a worker in occam, and reports its warnings.
fn read_reported<'a, E: Write>(
    alloc: Global,
    errors: &mut E,
    input: &Input,
    text: &'a [u8],
) -> Result<Occam<'a>, Failure>
    ensures { IfOk result (λ occam. IsCompiled occam.text.now occam.compiled) }
{
    let occam = read_occam(alloc, text)?;
    report(alloc, errors, input, text, &occam.compiled.warnings)?;
    Ok(occam)
}

/// Whether a worker is refused for its warnings.
fn is_denied(asked: &Asked, warnings: &[Diagnostic]) -> bool {
    asked.denies_warnings && !warnings.is_empty()
}

/// Writes the image that a text says, behind a name where one is given.
fn assemble<W: Write, E: Write>(
    alloc: Global,
    text: &[u8],
    writer: &mut W,
    terminal: &mut Terminal<'_, E>,
    asked: &Asked,
    name: Option<&str>,
) -> Result<Outcome, Failure> {
    let input = &asked.input;
    match asked.language {
        Language::Assembly => assemble_text(alloc, text, writer, name),
        Language::Occam => {
            let built = build(alloc, input, Language::Occam, text)?;
            report(alloc, terminal.errors, input, text, built.warnings())?;
            if is_denied(asked, built.warnings()) {
                return Ok(Outcome::Bad);
            }
            check_acceptance(alloc, &built)?;
            write_image(alloc, &built.bytes, writer, name)
        }
    }
}

/// Does what is asked with the text of the input.
fn perform<T, R: Read, W: Write, E: Write>(
    rt: &T,
    inputs: &mut Inputs<'_, T, R>,
    alloc: Global,
    text: &[u8],
    writer: &mut W,
    terminal: &mut Terminal<'_, E>,
    asked: &Asked,
) -> Result<Outcome, Ending>
where
    T: Files + Threads + Wait + Clock + Eprint + Sync,
    ensures { IfErr result (λ e. status_of e ≡ 2 → W.contents writer.new ≡ W.contents writer.old) }
{
    let input = &asked.input;
    match &asked.task {
        Task::Work(work) => {
            let built = build(alloc, input, asked.language, text)?;
            report(alloc, terminal.errors, input, text, built.warnings())?;
            if is_denied(asked, built.warnings()) {
                return Ok(Outcome::Bad);
            }
            perform_on(rt, inputs, alloc, &built, writer, terminal, asked, work)
        }
        Task::Evaluate(output) => {
            let occam = read_reported(alloc, terminal.errors, input, text)?;
            if is_denied(asked, &occam.compiled.warnings) {
                return Ok(Outcome::Bad);
            }
            evaluate_text(alloc, inputs, &occam, writer, terminal, output)
        }
        Task::Follow(following) => {
            let occam = read_reported(alloc, terminal.errors, input, text)?;
            if is_denied(asked, &occam.compiled.warnings) {
                return Ok(Outcome::Bad);
            }
            follow_text(alloc, inputs, &occam, writer, following)
        }
        Task::Translate => {
            let occam = read_reported(alloc, terminal.errors, input, text)?;
            if is_denied(asked, &occam.compiled.warnings) {
                return Ok(Outcome::Bad);
            }
            Ok(translate(alloc, &occam, writer)?)
        }
        Task::Assemble(name) => Ok(assemble(
            alloc,
            text,
            writer,
            terminal,
            asked,
            name.as_deref(),
        )?),
        Task::Disassemble => Ok(disassemble_image(alloc, text, writer)?),
    }
}

/// Reads the input that is asked for, and does what is asked with its text. Faults of the text are reported.
fn perform_reported<T, R: Read, W: Write, E: Write>(
    rt: &T,
    inputs: &mut Inputs<'_, T, R>,
    alloc: Global,
    writer: &mut W,
    terminal: &mut Terminal<'_, E>,
    asked: &Asked,
) -> Result<Outcome, Ending>
where
    T: Files + Threads + Wait + Clock + Eprint + Sync,
    ensures { IfErr result (λ e. status_of e ≡ 2 → W.contents writer.new ≡ W.contents writer.old) }
{
    let text = inputs.read(alloc, &asked.input)?;
    match perform(rt, inputs, alloc, &text, writer, terminal, asked) {
        Err(Ending::Failed(failure)) => {
            match report_failure(alloc, terminal.errors, &asked.input, &text, failure) {
                Some(failure) => Err(Ending::Failed(failure)),
                None => Ok(Outcome::Bad),
            }
        }
        ended => ended,
    }
}

/// The same, where a failed write has its cause.
fn perform_settled<T, R: Read, W: Write, E: Write>(
    rt: &T,
    inputs: &mut Inputs<'_, T, R>,
    alloc: Global,
    writer: &mut Output<W>,
    terminal: &mut Terminal<'_, E>,
    asked: &Asked,
) -> Result<Outcome, Ending>
where
    T: Files + Threads + Wait + Clock + Eprint + Sync,
    ensures { IfErr result (λ e. status_of e ≡ 2 → W.contents writer.new.writer ≡ W.contents writer.old.writer) }
{
    match perform_reported(rt, inputs, alloc, writer, terminal, asked) {
        Err(Ending::Failed(failure)) => settle(failure, writer.fault),
        ended => ended,
    }
}

/// Writes the text that a command line asks for, and flushes it.
fn show<W: Write, T: fmt::Display>(writer: &mut Output<W>, text: &T) -> Result<Outcome, Ending>
    ensures { status_by result ≤ 1 }
{
    match write!(writer, "{text}").and_then(|()| writer.flush()) {
        Ok(()) => Ok(Outcome::Good),
        Err(_) => settle(Failure::Write, writer.fault),
    }
}

/// The command that the words ask for.
fn read_words(words: &impl Env, alloc: Global) -> Result<Asked, Ending> {
    let words = words_of(words, alloc)?;
    asked_by(alloc, &words)
}

/// Writes why the program ends early. A fault of the command's input comes behind its name.
fn write_ending<E: Write>(errors: &mut E, input: &Input, ending: &Ending) {
    let _ = match ending {
        Ending::Failed(Failure::Input(fault)) => write!(errors, "{input}{fault}\n"),
        _ => write!(errors, "{ending}"),
    };
}

/// The status of what a command answers, or of how the program ends early, which is written.
fn end_with<E: Write>(errors: &mut E, input: &Input, ended: Result<Outcome, Ending>) -> ExitCode
    ensures { exit_status result ≡ status_by ended }
{
    match ended {
        Ok(outcome) => ExitCode::from(outcome.status()),
        Err(ending) => {
            write_ending(errors, input, &ending);
            ExitCode::from(ending.status())
        }
    }
}

/// Does what is asked for. Where no command is, or it ends early, it says why on the terminal.
fn run_asked<T, R: Read, W: Write, E: Write>(
    rt: &T,
    asked: Result<Asked, Ending>,
    alloc: Global,
    reader: &mut R,
    writer: &mut Output<W>,
    terminal: &mut Terminal<'_, E>,
) -> ExitCode
where
    T: Files + Threads + Wait + Clock + Eprint + Sync,
    ensures status { exit_status result ≤ 2 }
    ensures refused { exit_status result ≡ 2 → W.contents writer.new.writer ≡ W.contents writer.old.writer }
    ensures early { IfErr asked (λ e. EndsEarly e (W.contents writer.old.writer) (W.contents writer.new.writer)
        (exit_status result)) }
{
    let mut inputs = Inputs {
        files: rt,
        standard: reader,
    };
    match asked {
        Ok(asked) => {
            let ended = perform_settled(rt, &mut inputs, alloc, writer, terminal, &asked);
            end_with(terminal.errors, &asked.input, ended)
        }
        Err(Ending::Shown(text)) => {
            let ended = show(writer, &text);
            end_with(terminal.errors, &Input::Standard, ended)
        }
        Err(ending) => end_with(terminal.errors, &Input::Standard, Err(ending)),
    }
}

/// Does what the words ask for. Where that ends early, it says why on the terminal; where the reader of the output went
/// away, nothing.
pub fn run<T, R: Read, W: Write, E: Write>(
    rt: &T,
    words: &impl Env,
    alloc: Global,
    reader: &mut R,
    writer: &mut Output<W>,
    terminal: &mut Terminal<'_, E>,
) -> ExitCode
where
    T: Files + Threads + Wait + Clock + Eprint + Sync,
    ensures status { exit_status result ≤ 2 }
    ensures refused { exit_status result ≡ 2 → W.contents writer.new.writer ≡ W.contents writer.old.writer }
{
    let asked = read_words(words, alloc);
    run_asked(rt, asked, alloc, reader, writer, terminal)
}
