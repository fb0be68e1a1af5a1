//! `asm`, as the command line has it, and what it is asked for.

use crate::argument::{Argument, Kind};
use crate::ending::Ending;
use crate::options::LINE;
use crate::refusal::Refusal;
use crate::shared::{DENY_ARGUMENT, FILE_ARGUMENT, OCCAM_ARGUMENT};
use crate::subcommand::Subcommand;
use clap::ArgMatches;
use std::alloc::Global;

/// The name of the command.
pub(crate) const ASM: &str = "asm";

/// A name before the image.
const LINE_ARGUMENT: Argument = Argument {
    name: LINE,
    kind: Kind::Text("NAME"),
    help: "Writes `NAME IMAGE` before the image, ready for farmd: 1 to 16 of a to z, 0 to 9",
};

/// `asm`, as the command line has it.
pub(crate) const ASM_COMMAND: Subcommand = Subcommand {
    name: ASM,
    about: "Makes an image of a text",
    lines: "\
Reads a text, in assembly or in occam, and writes its image as hexadecimal on one line.
Status 1: the text says no worker; standard error names the place, FILE:LINE:COLUMN, and the fault.
docs/WORKERS.md shows a text.",
    arguments: &[FILE_ARGUMENT, OCCAM_ARGUMENT, DENY_ARGUMENT, LINE_ARGUMENT],
};

/// The longest name of a session.
const NAME_BYTES: usize = 16;

/// Whether farmd takes a name: 1 to 16 letters in lower case and digits.
fn is_name(name: &str) -> bool {
    let is_short = !name.is_empty() && name.len() <= NAME_BYTES;
    is_short
        && name
            .bytes()
            .all(|byte| byte.is_ascii_lowercase() || byte.is_ascii_digit())
}

/// The name that goes before the image, if one is given.
pub fn line_name(alloc: Global, matches: &ArgMatches<'_>) -> Result<Option<String>, Ending> {
    match matches.get_str(LINE) {
        Some(name) if !is_name(name) => Err(Ending::Refused(Refusal::NoName)),
        Some(name) => Ok(Some(String::from_str(alloc, name)?)),
        None => Ok(None),
    }
}
