//! The values of arguments that several commands take.

use crate::ending::Ending;
use crate::options::{EXPECT, HEX, HEX_EXPECT, HEX_PACKETS, MEMBERS, PACKETS, RAW, TRACE, WORDS};
use crate::output_options::OutputOptions;
use crate::packet_source::{Expecting, PacketFile, PacketSource};
use crate::refusal::Refusal;
use clap::ArgMatches;
use std::alloc::Global;
use tpw_runs::{Notation, Style};

/// How many members run packets where nothing is said.
const DEFAULT_MEMBERS: usize = 4;

/// The text that an option gives, if it is given.
pub fn text_given(
    alloc: Global,
    matches: &ArgMatches<'_>,
    name: &'static str,
) -> Result<Option<String>, Ending> {
    match matches.get_str(name) {
        Some(text) => Ok(Some(String::from_str(alloc, text)?)),
        None => Ok(None),
    }
}

/// The texts that an option gives, each time that it is given.
fn texts_given(
    alloc: Global,
    matches: &ArgMatches<'_>,
    name: &'static str,
) -> Result<Vec<String>, Ending> {
    let mut texts = Vec::new(alloc);
    if let Some(given) = matches.get_strs(name) {
        for text in given {
            texts.push(String::from_str(alloc, *text)?)?;
        }
    }
    Ok(texts)
}

/// How messages are written, by the option that says that they are in hexadecimal.
fn notation(matches: &ArgMatches<'_>, name: &'static str) -> Notation {
    if matches.get_flag(name) {
        Notation::Hexadecimal
    } else {
        Notation::Words
    }
}

/// How many packets of the command line stand before its file of packets.
fn words_before(matches: &ArgMatches<'_>) -> usize {
    let file = match matches.indices_of(PACKETS) {
        Some([file, ..]) => *file,
        _ => 0,
    };
    let words = matches.indices_of(WORDS).unwrap_or(&[]);
    words.iter().filter(|word| **word < file).count()
}

/// Whether packets are said.
pub fn has_packets(matches: &ArgMatches<'_>) -> bool {
    matches.get_strs(WORDS).is_some() || matches.get_str(PACKETS).is_some()
}

/// The packets that are asked for.
pub fn packet_source(alloc: Global, matches: &ArgMatches<'_>) -> Result<PacketSource, Ending> {
    let words = texts_given(alloc, matches, WORDS)?;
    let file = match text_given(alloc, matches, PACKETS)? {
        Some(name) => Some(PacketFile {
            name,
            after: words_before(matches),
        }),
        None => None,
    };
    if words.is_empty() && file.is_none() {
        return Err(Ending::Refused(Refusal::NoPackets));
    }
    Ok(PacketSource {
        words,
        file,
        notation: notation(matches, HEX_PACKETS),
    })
}

/// The results that are expected, where they are.
fn expecting(alloc: Global, matches: &ArgMatches<'_>) -> Result<Option<Expecting>, Ending> {
    match text_given(alloc, matches, EXPECT)? {
        Some(name) => Ok(Some(Expecting {
            name,
            notation: notation(matches, HEX_EXPECT),
        })),
        None => Ok(None),
    }
}

/// How results are written.
pub fn style_given(matches: &ArgMatches<'_>) -> Style {
    Style {
        hexadecimal: matches.get_flag(HEX),
        trace: matches.get_flag(TRACE),
    }
}

/// The packets that are asked for, and how what is made of them is shown.
pub fn output_options(alloc: Global, matches: &ArgMatches<'_>) -> Result<OutputOptions, Ending> {
    Ok(OutputOptions {
        source: packet_source(alloc, matches)?,
        expect: expecting(alloc, matches)?,
        style: style_given(matches),
        raw: matches.get_flag(RAW),
    })
}

/// How many members run packets.
pub fn members(matches: &ArgMatches<'_>) -> usize {
    matches.get_one::<usize>(MEMBERS).unwrap_or(DEFAULT_MEMBERS)
}
