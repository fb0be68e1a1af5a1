//! `profile`, as the command line has it, and what it is asked for.

use crate::arguments::{members, packet_source};
use crate::ending::Ending;
use crate::packet_source::PacketSource;
use crate::shared::{
    DENY_ARGUMENT, FILE_ARGUMENT, HEX_PACKETS_ARGUMENT, MEMBERS_ARGUMENT, OCCAM_ARGUMENT,
    PACKETS_ARGUMENT, WORDS_ARGUMENT,
};
use crate::subcommand::Subcommand;
use clap::ArgMatches;
use std::alloc::Global;

/// The name of the command.
pub(crate) const PROFILE: &str = "profile";

/// `profile`, as the command line has it.
pub(crate) const PROFILE_COMMAND: Subcommand = Subcommand {
    name: PROFILE,
    about: "Runs packets on a worker, and writes where their steps go",
    lines: "\
Reads a worker in occam or as assembly text, or an image as hexadecimal, accepted by the verifier or not, and runs packets on
it. It writes how many steps they made, each an instruction byte; the share of each line of the text, or of each instruction
of an image, and how often it was run, the most steps first; and the share of each loop, and its turns.
A packet whose traces have more than 256 bytes is lost, as it is on a farm.
Status 0: each worker stopped. Status 1: not so, or what is read says no worker.",
    arguments: &[
        FILE_ARGUMENT,
        OCCAM_ARGUMENT,
        DENY_ARGUMENT,
        WORDS_ARGUMENT,
        PACKETS_ARGUMENT,
        HEX_PACKETS_ARGUMENT,
        MEMBERS_ARGUMENT,
    ],
};

/// The options of `profile`: the packets to be counted, and the members.
#[derive(Drop)]
pub struct ProfileOptions {
    pub source: PacketSource,
    pub members: usize,
}

/// The options that are given.
pub fn profiling_of(alloc: Global, matches: &ArgMatches<'_>) -> Result<ProfileOptions, Ending> {
    Ok(ProfileOptions {
        source: packet_source(alloc, matches)?,
        members: members(matches),
    })
}
