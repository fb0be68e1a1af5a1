//! The command line, which clap reads.

use crate::assembler::ASM_COMMAND;
use crate::disassembler::DIS_COMMAND;
use crate::evaluator::EVAL_COMMAND;
use crate::explainer::WHY_COMMAND;
use crate::lister::LIST_COMMAND;
use crate::profiler::PROFILE_COMMAND;
use crate::runner::RUN_COMMAND;
use crate::stepper::STEP_COMMAND;
use crate::subcommand::{Subcommand, command_of};
use crate::translator::OCCAM_COMMAND;
use clap::{ArgMatches, Command, Error};
use std::alloc::Global;
use std::convert::AsStr;

/// The text of `--version` behind the name: the version, the commit where a package is built, and the kit that the proofs
/// are made with.
const VERSION: &str = "0.1 (unreleased, rattle-kit-13f)";

/// The commands, in the order of help.
static COMMANDS: [Subcommand; 9] = [
    ASM_COMMAND,
    DIS_COMMAND,
    EVAL_COMMAND,
    LIST_COMMAND,
    OCCAM_COMMAND,
    PROFILE_COMMAND,
    RUN_COMMAND,
    STEP_COMMAND,
    WHY_COMMAND,
];

/// The program without its commands.
fn program<'a>(alloc: Global) -> Result<Command<'a>, Error> {
    Ok(
        Command::new(alloc, "tpw")
            .bin_name("tpw")?
            .version(VERSION)
            .about("Tools for those who write workers")
            .subcommand_required(true),
    )
}

/// The program with its commands.
fn program_with_commands<'a>(alloc: Global) -> Result<Command<'a>, Error> {
    let mut program = program(alloc)?;
    for subcommand in &COMMANDS {
        program = program.subcommand(command_of(alloc, subcommand)?)?;
    }
    Ok(program)
}

/// The matches of words, the first of which names the program. Fails with a text that is asked for, with words that are
/// not taken, or out of memory.
pub fn matches_of<'a, S: AsStr>(alloc: Global, words: &'a [S]) -> Result<ArgMatches<'a>, Error> {
    program_with_commands(alloc)?.try_get_matches_from(words)
}
