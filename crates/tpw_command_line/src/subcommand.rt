//! Commands, as they are written down here and as clap takes them.

use crate::argument::{Argument, arg_of};
use clap::{Command, Error};
use std::alloc::Global;

/// A command of the program.
pub(crate) struct Subcommand {
    pub(crate) name: &'static str,
    /// Its line of help.
    pub(crate) about: &'static str,
    /// The text of help below its arguments.
    pub(crate) lines: &'static str,
    /// Its arguments, in the order of help.
    pub(crate) arguments: &'static [Argument],
}

/// A command as clap takes it.
pub(crate) fn command_of<'a>(alloc: Global, subcommand: &Subcommand) -> Result<Command<'a>, Error> {
    let mut command = Command::new(alloc, subcommand.name)
        .about(subcommand.about)
        .after_help(subcommand.lines);
    for argument in subcommand.arguments {
        command = command.arg(arg_of(alloc, argument)?)?;
    }
    Ok(command)
}
