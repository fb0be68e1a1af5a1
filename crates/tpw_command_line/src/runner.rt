//! `run`, as the command line has it, and what it is asked for.

use crate::argument::{Argument, Kind};
use crate::arguments::{members, output_options};
use crate::ending::Ending;
use crate::options::{CHECK, RAW};
use crate::output_options::OutputOptions;
use crate::shared::{
    DENY_ARGUMENT, EXPECT_ARGUMENT, FILE_ARGUMENT, HEX_ARGUMENT, HEX_EXPECT_ARGUMENT,
    HEX_PACKETS_ARGUMENT, MEMBERS_ARGUMENT, OCCAM_ARGUMENT, PACKETS_ARGUMENT, RAW_ARGUMENT,
    TRACE_ARGUMENT, WORDS_ARGUMENT,
};
use crate::subcommand::Subcommand;
use clap::ArgMatches;
use std::alloc::Global;

/// The name of the command.
pub(crate) const RUN: &str = "run";

/// Whether runs are compared with what a text means.
const CHECK_ARGUMENT: Argument = Argument {
    name: CHECK,
    kind: Kind::FlagConflicting(&[RAW]),
    help: "Compare results, flags and traces with what the text in occam means: what differs alone is written",
};

/// `run`, as the command line has it.
pub(crate) const RUN_COMMAND: Subcommand = Subcommand {
    name: RUN,
    about: "Runs packets on a worker, and writes each result",
    lines: "\
Reads a worker in occam or as assembly text, or an image as hexadecimal. Packets and expected results are a line each, their
words as numbers, or with --hex-packets and --hex-expect two digits for each byte, as they are sent; `flag 1` before an
expected result says that the error flag is set. For each packet it writes its number, the error flag, the steps of the
budget, and its words; or that it was lost, and why. The last line counts them. A FILE of - is standard input.
Status 0: each packet has a result, the one expected; with --check, each is what the text means, lost ones too. Status 1: not
so, or the worker is refused, as `why` explains it.",
    arguments: &[
        FILE_ARGUMENT,
        OCCAM_ARGUMENT,
        DENY_ARGUMENT,
        WORDS_ARGUMENT,
        PACKETS_ARGUMENT,
        HEX_PACKETS_ARGUMENT,
        EXPECT_ARGUMENT,
        HEX_EXPECT_ARGUMENT,
        MEMBERS_ARGUMENT,
        CHECK_ARGUMENT,
        TRACE_ARGUMENT,
        HEX_ARGUMENT,
        RAW_ARGUMENT,
    ],
};

/// The options of `run`.
#[derive(Drop)]
pub struct RunOptions {
    pub output: OutputOptions,
    pub members: usize,
    /// Whether what is made of packets is compared with what the text means by them.
    pub check: bool,
}

/// The options that are given.
pub fn running_of(alloc: Global, matches: &ArgMatches<'_>) -> Result<RunOptions, Ending> {
    Ok(RunOptions {
        output: output_options(alloc, matches)?,
        members: members(matches),
        check: matches.get_flag(CHECK),
    })
}
