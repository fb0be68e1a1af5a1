//! `list`, as the command line has it.

use crate::shared::{DENY_ARGUMENT, FILE_ARGUMENT, OCCAM_ARGUMENT};
use crate::subcommand::Subcommand;

/// The name of the command.
pub(crate) const LIST: &str = "list";

/// `list`, as the command line has it.
pub(crate) const LIST_COMMAND: Subcommand = Subcommand {
    name: LIST,
    about: "Lists a worker's instructions with what each costs",
    lines: "\
Reads an image as hexadecimal, one line, or a worker in occam or as assembly text. It writes the verdict; the bound on the
instruction bytes of a run, and the bytes of a turn of each loop; and each instruction: its address, its bytes, the most bytes
that are executed from there to the end of the loop around it, or of the run, and the line of the text that says it.
Status 0: the image is accepted. Status 1: it is refused, or what is read says none.",
    arguments: &[FILE_ARGUMENT, OCCAM_ARGUMENT, DENY_ARGUMENT],
};
