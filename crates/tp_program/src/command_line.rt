//! The grammar of the command line.

ghost use Rattle.std.specs.Prelude.{◌≡◌, ◌∷◌, [], List, ℕ, map, IfOk, MatchResult, IfErr, true, false};
ghost use Rattle.clap.specs.Words.{app_of, fault_of, kind_of, takes, FailsBy};
ghost use Rattle.clap.specs.declared.error.ErrorKind.TheVariants.{OutOfMemory};
ghost use Rattle.tp_program.specs.CommandLine.{farmd, AsksFor, HasArguments, IsMembers, IsTrace};

use crate::chosen::Options;
use clap::{Arg, ArgAction, Command, Error, value_parser};
use std::alloc::Global;
use std::convert::AsStr;

/// The text of `--version` behind the name: the version, the commit where a package is built, and the kit that the proofs
/// are made with.
const VERSION: &str = "0.1 (unreleased, rattle-kit-13f)";

/// The lines of `--help` below the options.
const LINES: &str = "\
Reads lines on standard input, and writes the answer to each on standard output:
  LIST <hex>        the instructions of a code, then DONE <instructions>
  <s> IMAGE <hex>   YES <code bytes> <budget>; opens session <s>, or gives it another image
  <s> PACKET <hex>  KEPT <n>, the packet's number in the coming batch
  <s> RUN           R <n> <flag> <steps> <hex> or LOST <n> for each packet, then DONE <packets>
  RUN *             OF <s> and its RUN for each session, then ALL <sessions>
  <s> DROP          GONE
A refused line is answered by NO <code> <place>. docs/PROTOCOL.md says the rest.";

/// `--members N`.
fn members_argument<'a>(alloc: Global) -> Arg<'a>
    ensures { IsMembers result }
{
    Arg::new(alloc, "members")
        .long("members")
        .value_name("N")
        .action(ArgAction::Set)
        .value_parser(value_parser!(usize).range(1..=64))
        .default_value("4")
        .help("How many members run a batch, 1 to 64")
}

/// `--trace`.
fn trace_argument<'a>(alloc: Global) -> Arg<'a>
    ensures { IsTrace result }
{
    Arg::new(alloc, "trace")
        .long("trace")
        .action(ArgAction::SetTrue)
        .value_parser(value_parser!(bool))
        .help("Follow each result with its trace")
}

/// The command line that the program knows.
fn command<'a>(alloc: Global) -> Result<Command<'a>, Error>
    ensures app { IfOk result (λ c. app_of c ≡ farmd) }
    ensures arguments { IfOk result HasArguments }
    ensures memory { IfErr result (λ e. kind_of e ≡ OutOfMemory) }
{
    let command = Command::new(alloc, "farmd")
        .bin_name("farmd")?
        .version(VERSION)
        .about("A processor farm whose every promise is proved")
        .after_help(LINES)
        .arg(members_argument(alloc))?
        .arg(trace_argument(alloc))?;
    Ok(command)
}

/// The options of words, the first of which names the program. Fails with a request for help or for the version, with
/// words that are not taken, or out of memory; the error's text is for the user.
pub fn options<'a, S: AsStr>(alloc: Global, words: &'a [S]) -> Result<Options, Error>
    ensures asked { IfOk result (AsksFor (map S.text words.now)) }
    ensures fails { FailsBy (fault_of farmd (map S.text words.now)) result }
    ensures taken { IfErr result (λ e. takes farmd (map S.text words.now) ≡ true → kind_of e ≡ OutOfMemory) }
    ensures alone { (name : List ℕ) → map S.text words.now ≡ name ∷ [] → MatchResult result
        (λ o. o ≡ record { members = 4; trace = false }) (λ e. kind_of e ≡ OutOfMemory) }
{
    let matches = command(alloc)?.try_get_matches_from(words)?;
    Ok(Options {
        members: matches.get_one::<usize>("members").unwrap(),
        trace: matches.get_flag("trace"),
    })
}
