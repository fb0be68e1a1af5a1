//! The program, from its words and streams to its status.

ghost use Rattle.std.specs.Prelude.{◌≡◌, [], map, string_bytes, IfOk, IfErr};
ghost use Rattle.std.specs.Vec.Iter.{into_iter_items};
ghost use Rattle.std.specs.IoError.{error_kind};
ghost use Rattle.std.specs.Process.{exit_status};
ghost use Rattle.clap.specs.Words.{fault_of};
ghost use Rattle.tp_program.specs.CommandLine.{farmd, AsksFor};
ghost use Rattle.tp_program.specs.Program.{Performs, DoesNothing};
ghost use Rattle.tp_program.specs.Endings.{IsEndingBy};

use crate::chosen::Options;
use crate::command_line::options;
use crate::ending::{Ending, report};
use crate::members::serve_members;
use crate::words::words_of;
use std::alloc::Global;
use std::convert::AsStr;
use std::env::Args;
use std::io;
use std::io::{Read, Write};
use std::process::ExitCode;
use std::sync::Wait;
use std::thread::Threads;

/// The options that the words ask for.
fn asked<S: AsStr>(alloc: Global, words: &[S]) -> Result<Options, Ending>
    ensures asked { IfOk result (AsksFor (map S.text words.now)) }
    ensures none { IfOk result (λ asked. fault_of farmd (map S.text words.now) ≡ []) }
    ensures fails { IfErr result (IsEndingBy (fault_of farmd (map S.text words.now))) }
{
    match options(alloc, words) {
        Ok(asked) => Ok(asked),
        Err(error) => Err(Ending::from(error)),
    }
}

/// Does what these words ask for, the first of which names the program: serves, or shows a text. Writes to `errors` why
/// it ends early, if it does.
pub fn run_words<T: Threads + Wait + Sync, S: AsStr, R: Read, W: Write, E: Write>(
    rt: &T,
    words: &[S],
    alloc: Global,
    reader: &mut R,
    writer: &mut W,
    errors: &mut E,
) -> ExitCode
    ensures { Performs (map S.text words.now) (R.remaining reader.old) (R.remaining reader.new) (W.contents writer.old)
        (W.contents writer.new) (E.contents errors.old) (E.contents errors.new) (exit_status result) }
{
    match asked(alloc, words) {
        Ok(asked) => match serve_members(rt, alloc, reader, writer, asked) {
            Ok(()) => ExitCode::SUCCESS,
            Err(fault) => report(errors, fault),
        },
        Err(ending) => ending.conclude(writer, errors),
    }
}

/// Does what the words of a command line ask for, as `env::args` gives them. Writes to `errors` why it ends early, if
/// it does.
pub fn run<T: Threads + Wait + Sync, R: Read, W: Write, E: Write>(
    rt: &T,
    words: io::Result<Args>,
    alloc: Global,
    reader: &mut R,
    writer: &mut W,
    errors: &mut E,
) -> ExitCode
    ensures words { IfOk words (λ words. Performs (map string_bytes (into_iter_items words))
        (R.remaining reader.old) (R.remaining reader.new) (W.contents writer.old) (W.contents writer.new)
        (E.contents errors.old) (E.contents errors.new) (exit_status result)) }
    ensures none { IfErr words (λ error. DoesNothing (error_kind error)
        (R.remaining reader.old) (R.remaining reader.new) (W.contents writer.old) (W.contents writer.new)
        (E.contents errors.old) (E.contents errors.new) (exit_status result)) }
{
    match words_of(words, alloc) {
        Ok(words) => run_words(rt, &words, alloc, reader, writer, errors),
        Err(ending) => ending.conclude(writer, errors),
    }
}
