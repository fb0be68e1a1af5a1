//! The task of a command line.

use crate::arguments::output_options;
use crate::assembler::{ASM, line_name};
use crate::command_line::matches_of;
use crate::disassembler::DIS;
use crate::ending::Ending;
use crate::evaluator::{EVAL, FollowOptions, following_of};
use crate::explainer::WHY;
use crate::lister::LIST;
use crate::options::{DENY_WARNINGS, FILE, IN_OCCAM, STATEMENTS};
use crate::output_options::OutputOptions;
use crate::profiler::{PROFILE, ProfileOptions, profiling_of};
use crate::refusal::Refusal;
use crate::runner::{RUN, RunOptions, running_of};
use crate::stepper::{STEP, StepOptions, stepping_of};
use crate::translator::OCCAM;
use clap::ArgMatches;
use std::alloc::Global;
use std::convert::AsStr;
use tpw_files::{Input, Language};

/// The task of a command line, with where its text is read and the language of that.
#[derive(Drop)]
pub struct Asked {
    pub task: Task,
    pub input: Input,
    pub language: Language,
    /// Whether a worker with warnings is refused.
    pub denies_warnings: bool,
}

/// A task on a text.
#[derive(Drop)]
pub enum Task {
    Work(Work),
    /// An image of a text, behind a name where one is given.
    Assemble(Option<String>),
    /// An assembly text of one in occam.
    Translate,
    /// The meaning of packets by a text in occam.
    Evaluate(OutputOptions),
    /// The statements of a packet by a text in occam, and its meaning.
    Follow(FollowOptions),
    Disassemble,
}

/// How a verdict is written.
#[derive(Clone, Copy, Debug, PartialEq, Eq)]
pub enum Report {
    /// With what a refusal means, what is known there, and what helps.
    Why,
    /// With the code, and what each instruction costs.
    List,
}

/// A task on a worker.
#[derive(Drop)]
pub enum Work {
    Run(RunOptions),
    Profile(ProfileOptions),
    Step(StepOptions),
    /// The verdict on an image.
    Judge(Report),
}

/// Where a command reads.
fn input_of(alloc: Global, matches: &ArgMatches<'_>) -> Result<Input, Ending> {
    match matches.get_str(FILE) {
        Some(name) => Ok(Input::named(alloc, name)?),
        None => Ok(Input::Standard),
    }
}

/// The language of the worker of a command, where it reads one.
fn language_of(matches: &ArgMatches<'_>, task: &Task, input: &Input) -> Language {
    match task {
        Task::Translate | Task::Evaluate(_) | Task::Follow(_) => Language::Occam,
        Task::Disassemble => Language::Assembly,
        Task::Work(_) | Task::Assemble(_) if matches.get_flag(IN_OCCAM) => Language::Occam,
        Task::Work(_) | Task::Assemble(_) => Language::of(input),
    }
}

/// Refuses a task with an input where standard input is named for more than one of them.
fn check_standard(task: &Task, input: &Input) -> Result<(), Refusal> {
    let (packets, expected) = match task {
        Task::Work(Work::Run(RunOptions { output, .. })) | Task::Evaluate(output) => {
            (output.source.is_standard(), output.is_standard())
        }
        Task::Follow(following) => (following.packet.source.is_standard(), false),
        Task::Work(Work::Profile(profiling)) => (profiling.source.is_standard(), false),
        Task::Work(Work::Step(stepping)) => (stepping.is_standard(), false),
        Task::Work(Work::Judge(_)) | Task::Assemble(_) | Task::Translate | Task::Disassemble => {
            (false, false)
        }
    };
    let worker = matches!(input, Input::Standard);
    if (worker && (packets || expected)) || (packets && expected) {
        return Err(Refusal::StandardTwice);
    }
    Ok(())
}

/// Refuses a check, or a view by statements, of a worker that is not in occam.
fn check_language(task: &Task, language: Language) -> Result<(), Refusal> {
    match task {
        Task::Work(Work::Run(running)) if running.check && language != Language::Occam => {
            Err(Refusal::NoCheck)
        }
        Task::Work(Work::Step(stepping)) if stepping.statements && language != Language::Occam => {
            Err(Refusal::NoStatements)
        }
        _ => Ok(()),
    }
}

/// The task of `eval`: the statements of one packet where they are asked for, else what each packet means.
fn evaluation_of(alloc: Global, matches: &ArgMatches<'_>) -> Result<Task, Ending> {
    if matches.get_flag(STATEMENTS) {
        Ok(Task::Follow(following_of(alloc, matches)?))
    } else {
        Ok(Task::Evaluate(output_options(alloc, matches)?))
    }
}

/// The task of a command by its name, with its arguments.
fn task_of(alloc: Global, name: &str, matches: &ArgMatches<'_>) -> Result<Task, Ending> {
    Ok(match name {
        PROFILE => Task::Work(Work::Profile(profiling_of(alloc, matches)?)),
        RUN => Task::Work(Work::Run(running_of(alloc, matches)?)),
        STEP => Task::Work(Work::Step(stepping_of(alloc, matches)?)),
        LIST => Task::Work(Work::Judge(Report::List)),
        WHY => Task::Work(Work::Judge(Report::Why)),
        ASM => Task::Assemble(line_name(alloc, matches)?),
        OCCAM => Task::Translate,
        EVAL => evaluation_of(alloc, matches)?,
        DIS => Task::Disassemble,
        _ => return Err(Ending::Refused(Refusal::NoCommand)),
    })
}

/// The task that words ask for, the first of which names the program.
pub fn asked_by<S: AsStr>(alloc: Global, words: &[S]) -> Result<Asked, Ending> {
    let matches = matches_of(alloc, words)?;
    let Some((name, found)) = matches.subcommand() else {
        return Err(Ending::Refused(Refusal::NoCommand));
    };
    let task = task_of(alloc, name, found)?;
    let input = input_of(alloc, found)?;
    let language = language_of(found, &task, &input);
    let denies_warnings = !matches!(task, Task::Disassemble) && found.get_flag(DENY_WARNINGS);
    check_standard(&task, &input)?;
    check_language(&task, language)?;
    Ok(Asked {
        task,
        input,
        language,
        denies_warnings,
    })
}
