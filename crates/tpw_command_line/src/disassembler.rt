//! `dis`, as the command line has it.

use crate::shared::FILE_ARGUMENT;
use crate::subcommand::Subcommand;

/// The name of the command.
pub(crate) const DIS: &str = "dis";

/// `dis`, as the command line has it.
pub(crate) const DIS_COMMAND: Subcommand = Subcommand {
    name: DIS,
    about: "Makes a text of an image",
    lines: "\
Reads an image as hexadecimal, and writes a text that asm reads as the same image.
Status 1: it is no image.",
    arguments: &[FILE_ARGUMENT],
};
