//! Why the command line is refused.

use thiserror::Error;
use tpw_runs::PacketKind;

/// The fault of a word that names no place.
#[derive(Clone, Copy, Debug, PartialEq, Eq, Error)]
pub enum PlaceKind {
    #[error("it is no address, as 36 or 0x24, and no count of steps, as +100")]
    NoNumber,
    #[error("an image has no lines and no labels")]
    NoText,
    #[error("this line of the text has no instruction")]
    NoLine,
    #[error("no label has this name")]
    NoLabel,
}

/// The fault of a word that names no word of a workspace.
#[derive(Clone, Copy, Debug, PartialEq, Eq, Error)]
pub enum WatchKind {
    #[error("no local has this name")]
    NoLocal,
    #[error("no local of this name is declared on this line")]
    NotDeclared,
    #[error("the local has {0} words, from 0 on")]
    NoIndex(usize),
    #[error("the local has {0} bytes, from 0 on")]
    NoByte(usize),
    #[error("the workspace has {0} words, from 0 on")]
    NoWord(u32),
}

/// Why the command line is refused, with its text.
#[derive(Debug, Drop, Error)]
pub enum Refusal {
    /// It is none that the program knows.
    #[error("{0}")]
    Line(clap::Error),
    /// A word of it is not UTF-8.
    #[error("error: a word of the command line is not UTF-8\n")]
    NotText,
    /// It has no command.
    #[error("error: no command is given\n")]
    NoCommand,
    /// It asks for a packet by another number than those that there are.
    #[error("error: invalid value '{0}' for '--number <N>': there are {1} packets, from 0 on\n")]
    NoNumber(usize, usize),
    /// Its name is none that farmd takes.
    #[error("error: invalid value for '--line <NAME>': it takes 1 to 16 letters a to z and digits\n")]
    NoName,
    /// An option has a text that names no place.
    #[error("error: invalid value '{0}' for '--{1} <PLACE>': {2}\n")]
    NoPlace(String, &'static str, PlaceKind),
    /// An option names a word that a worker does not have.
    #[error("error: invalid value '{0}' for '--watch <WORDS>': {1}\n")]
    NoWatched(String, WatchKind),
    /// Words of it say no packet.
    #[error("error: invalid value '{0}' for '--words <WORDS>': {1}\n")]
    NoWords(String, PacketKind),
    /// It says no packets.
    #[error("error: no packets are given, by --words or --packets\n")]
    NoPackets,
    /// It asks for a check of a worker that is not in occam.
    #[error("error: --check is for workers in occam: files named .occ, or those given with --occam\n")]
    NoCheck,
    /// It asks for the statements of a worker that is not in occam.
    #[error("error: --statements is for workers in occam: files named .occ, or those given with --occam\n")]
    NoStatements,
    /// It names standard input twice.
    #[error("error: standard input is read once: name a file for all but one of FILE, --packets and --expect\n")]
    StandardTwice,
}
