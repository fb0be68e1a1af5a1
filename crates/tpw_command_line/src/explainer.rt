//! `why`, as the command line has it.

use crate::shared::{DENY_ARGUMENT, FILE_ARGUMENT, OCCAM_ARGUMENT};
use crate::subcommand::Subcommand;

/// The name of the command.
pub(crate) const WHY: &str = "why";

/// `why`, as the command line has it.
pub(crate) const WHY_COMMAND: Subcommand = Subcommand {
    name: WHY,
    about: "Judges an image as the verifier does, and explains why it is refused",
    lines: "\
Reads an image as hexadecimal, one line, or a worker in occam or as assembly text.
Status 0: the image is accepted. Status 1: it is refused, or what is read says none.
docs/VERIFIER.md lists every refusal.",
    arguments: &[FILE_ARGUMENT, OCCAM_ARGUMENT, DENY_ARGUMENT],
};
