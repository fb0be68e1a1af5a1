//! `occam`, as the command line has it.

use crate::shared::{DENY_ARGUMENT, FILE_ARGUMENT};
use crate::subcommand::Subcommand;

/// The name of the command.
pub(crate) const OCCAM: &str = "occam";

/// `occam`, as the command line has it.
pub(crate) const OCCAM_COMMAND: Subcommand = Subcommand {
    name: OCCAM,
    about: "Makes an assembly text of one in occam",
    lines: "\
Reads a text in occam, and writes the assembly text that it becomes, each statement behind its line of occam. asm makes the
same image of both.
Status 1: the text says no worker; standard error names each place, FILE:LINE:COLUMN, and the fault.
docs/OCCAM.md has the language.",
    arguments: &[FILE_ARGUMENT, DENY_ARGUMENT],
};
